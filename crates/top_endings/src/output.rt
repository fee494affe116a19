//! What is given of what is printed.

ghost use Rattle.std.specs.Prelude.{◌≤◌};
ghost use Rattle.top_endings.specs.Endings.{Gives, gave};

use crate::printed::Printed;
use crate::status::Status;
use base_edges::{Sink, give_whole};

/// Gives what is printed, and says how it ended.
pub fn give<K: Sink>(printed: &Option<Printed>, sink: &mut K) -> Status
    ensures gives { Gives printed.now (gave K.held K.faults sink.old sink.new) result }
    ensures never_falls { K.faults sink.old ≤ K.faults sink.new }
{
    match printed {
        Some(printed) => match give_whole(sink, printed.text.as_str().as_bytes()) {
            Ok(()) => printed.status,
            Err(_) => Status::WriteFault,
        },
        None => Status::NoMemory,
    }
}
