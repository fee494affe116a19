//! How many rows, events and chunks a run can make of the migrated table until its RENAME is done: `proof_bounds::Volumes` says what is
//! counted.

ghost use Rattle.proof_bounds.specs.Volumes.Laws.{CommittedRowsAreFew, ViewsAreFew, EventsAreFew, HintsAreFew, ReadEventsAreFew, ChunksAreFew, ChunksStayFew};

use crate::cut_over::journals_are_turned;
use crate::server_turns::{definitions_are_done, exclusive_is_alone};
use crate::sessions::waits_are_reported;

/// Until its RENAME is done, the migrated table has at most as many committed rows as at first and lines in all scripts; and
/// no session sees more of them, with what it wrote.
pub fn rows_stay_few()
    ensures committed { CommittedRowsAreFew }
    ensures seen { ViewsAreFew }
{}

/// Until then the log has at most as many events of the migrated table as all lines can write, at most as many of the
/// changelog as attempts may be begun and four for each note that may be, and so at most as many of the two.
pub fn events_stay_few()
    ensures table { EventsAreFew }
    ensures changelog { HintsAreFew }
    ensures read { ReadEventsAreFew }
{}

/// Until then at most as many chunks are begun as the migrated table had rows at first and events since.
pub fn chunks_are_few()
    ensures { ChunksAreFew }
{}

/// After the RENAME no more chunks are begun.
pub fn chunks_stay_few()
    ensures { ChunksStayFew }
{
    exclusive_is_alone();
    definitions_are_done();
    waits_are_reported();
    journals_are_turned();
}
