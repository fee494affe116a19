//! A text given to a sink as a whole.

ghost use Rattle.std.specs.Prelude.{◌≡◌, ◌≤◌, [], IsOk, OnOk, OnErr};
ghost use Rattle.std.specs.Io.KnownBytes.{Appends};
ghost use Rattle.base_edges.specs.Edges.{Rose};
ghost use Rattle.base_edges.specs.Whole.{GivesPart};

use super::fault::SinkFault;
use crate::sink::{Gave, Sink};

/// Gives the text to its last byte, or up to the sink's first fault. An empty text calls nothing.
#[tactic(auto, using(crate::proofs::WholeTexts::front_grows))]
pub fn give_whole<K: Sink>(sink: &mut K, text: &[u8]) -> Result<(), SinkFault>
    ensures ok { OnOk result (Appends (K.held sink.old) (K.held sink.new) text.now) }
    ensures failed { OnErr result (Rose (K.faults sink.old) (K.faults sink.new)) }
    ensures part { OnErr result (GivesPart (K.held sink.old) (K.held sink.new) text.now) }
    ensures empty { text.now ≡ [] → IsOk result }
    ensures never_falls { K.faults sink.old ≤ K.faults sink.new }
{
    let mut given = 0;
    while given < text.len() {
        match sink.give(&text[given..]) {
            Gave::Some(n) => given += n,
            Gave::Failed => return Err(SinkFault),
        }
    }
    Ok(())
}
