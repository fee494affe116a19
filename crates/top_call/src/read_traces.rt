//! What holds of the plans and the traces of which an audit is asked: functions that do nothing, whose contracts are the laws.

ghost use Rattle.top_call.specs.ReadTraces.{AlterablePlansAlterTables, ReadTracesMayBeAudited};

use base_values::laws::stored_values_store_again;

/// The ALTER of an alterable plan makes tables of tables, as `run_auditor::audit` asks.
pub fn alterable_plans_alter_tables()
    ensures { AlterablePlansAlterTables }
{
    stored_values_store_again();
}

/// A trace that was read, and its plan, have all that `run_auditor::audit` asks.
pub fn read_traces_may_be_audited()
    ensures { ReadTracesMayBeAudited }
{
    alterable_plans_alter_tables();
}
