//! What every accepted plan has, so that the laws over journals speak of it; what its options allow; and what the program
//! of an alterable plan may ask.

ghost use Rattle.proof_plans.specs.ReadPlans.Schemas.{ReadPlansAreAccepted};
ghost use Rattle.proof_plans.specs.ReadPlans.Laws.{ReadPlansAreSerial, ReadTablesExist, ReadScriptsEnd, ReadPlansAreAlterable, ReadPlansAreWorded, ReadAttemptsDrain, ReadPlansAreRunnable};
ghost use Rattle.proof_plans.specs.ReadPlans.Options.{ReadOptionsAllow};
ghost use Rattle.proof_migration.specs.ToolPhase.Runnable.{AlterablePlansAreRunnable};

use base_values::laws::stored_values_store_again;

/// An accepted plan has at most 64 clients, its tables are tables of valid schemas, and its ALTER keeps the rows' keys.
pub fn read_plans_are_accepted()
    ensures { ReadPlansAreAccepted }
{}

/// The tables of a plan that is read are tables with clustered keys, the migrated one is one of them, and its ALTER is
/// taken; its scripts name no table of the tool's.
pub fn read_plans_are_serial()
    ensures serial { ReadPlansAreSerial }
    ensures stands { ReadTablesExist }
    ensures alterable { ReadPlansAreAlterable }
{
    read_plans_are_accepted();
}

/// Its scripts leave no transaction open.
pub fn read_scripts_end()
    ensures { ReadScriptsEnd }
{}

/// Its words fit: transactions, names, sizes, commands and kinds; and an attempt may be drained.
pub fn read_plans_are_worded()
    ensures worded { ReadPlansAreWorded }
    ensures drain { ReadAttemptsDrain }
{}

/// So it is runnable: all that its program gives may be called, polled and lost.
pub fn read_plans_are_runnable()
    ensures { ReadPlansAreRunnable }
{
    read_plans_are_serial();
    read_plans_are_worded();
    alterable_plans_are_runnable();
}

/// A plan that is read lets each wait be polled once at least, and allows one turn at least.
pub fn read_options_allow()
    ensures { ReadOptionsAllow }
{}

/// An alterable plan whose words fit is runnable: so all that its program gives may be called, polled and lost.
pub fn alterable_plans_are_runnable()
    ensures { AlterablePlansAreRunnable }
{
    stored_values_store_again();
}
