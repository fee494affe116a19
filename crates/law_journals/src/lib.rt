//! What holds of every journal, and of every run of every accepted plan: functions that do nothing, whose contracts are the
//! laws.
//!
//! `runs` says it of every run of every accepted plan, and `completion` that a run which nothing hinders is done; `plans`
//! is what such plans have. Of every history: `histories`, `turns`, `machines`, `server_turns`, `server_states`. The ghost
//! relation stands in `ghost_relation`, `ghost_rows` and `ghost_turns`, the sentry relation in `sentry`. Of every journal
//! that follows the program: `migration`, `chunks`, `program`, `cut_over`, `hints`, `sessions`, `attempts`, `causes` and
//! `progress`; and so `unaltered`, `marked` and `reverts`, by which kept journals are serial. `order` says in which order the
//! tool works, `bounds` counts turns, and `volumes` rows, events and chunks.
#![tactic(auto)]

pub mod attempts;
pub mod bounds;
pub mod causes;
pub mod chunks;
pub mod completion;
pub mod cut_over;
pub mod ghost_relation;
pub mod ghost_rows;
pub mod ghost_turns;
pub mod hints;
pub mod histories;
pub mod machines;
pub mod marked;
pub mod migration;
pub mod order;
pub mod plans;
pub mod program;
pub mod progress;
pub mod reverts;
pub mod runs;
pub mod sentry;
pub mod server_states;
pub mod server_turns;
pub mod sessions;
pub mod turns;
pub mod unaltered;
pub mod volumes;
