//! How a call of the program ends: its status, and what it prints, takes and gives where no plan is run.
#![tactic(auto)]

mod audits;
mod checks;
mod command;
mod output;
mod printed;
mod rebuilt;
mod refusals;
mod status;

pub use audits::answer_shown;
pub use checks::plan_checked;
pub use command::PlanCommand;
pub use output::give;
pub use printed::{Printed, read_fault_shown, usage_shown, workload_shown};
pub use rebuilt::{has_second_unique, rebuilt_shown, unfit_shown};
pub use refusals::{Refusal, refused};
pub use status::Status;
