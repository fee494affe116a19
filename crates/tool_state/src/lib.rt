//! What the tool asks next, when it is over and how it ended, read off its record, its turns so far and the server. The record
//! is that of the module `tool_state`.
#![tactic(auto)]

mod calls;
mod causes;
mod ending;
mod feed_call;
mod next_call;
mod note_calls;
mod short_checkpoints;
pub mod tool_state;
mod tool_view;
mod verdict_view;

pub use causes::{new_column_name, old_places, verdict};
pub use ending::is_over;
pub use feed_call::FeedCall;
pub use next_call::NextCall;
pub use tool_view::ToolView;
pub use verdict_view::{CauseView, KeyView, VerdictView};
