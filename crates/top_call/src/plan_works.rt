//! The run of a plan that was read by worker threads, on any server: its journal and whose turns it has, with all that is promised
//! of them, and how it ended.

mod work;

pub use work::work_plan;
