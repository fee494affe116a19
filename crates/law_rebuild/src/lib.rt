//! What holds of tables that are rebuilt: functions that do nothing, whose contracts are the laws. That the rebuilt table is the
//! altered form of the table that followed its events is said by `run_rebuild::rebuild`, of opening tables and events that go
//! together; here stands which do, and that what a run logged stays. That the migrated table right after the RENAME of each run is such a
//! table, also where a new tool did the RENAME, is proved here too, from laws over journals, and stated where they are: `top_call::marks`.
#![tactic(auto)]

ghost use Rattle.law_rebuild.specs.Laws.{AlteredLogsGoTogether};

mod logs;

pub use logs::logs_grow;

/// The events of a table that was altered go together with its opening rows, where they lead through valid tables.
pub fn altered_logs_go_together()
    ensures { AlteredLogsGoTogether }
{}
