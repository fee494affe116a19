//! What is printed of an audit.

ghost use Rattle.std.specs.Prelude.{◌≡◌, ◌++◌, IfSome, OnOk};
ghost use Rattle.top_endings.specs.Audits.{answer_status, answer_text, IsAnswer};

use crate::printed::Printed;
use crate::status::Status;
use base_values::Text;
use run_audit::Audit;
use std::alloc::{AllocError, Global};

/// Adds an audit's answer.
#[tactic(auto, unfolding(crate::specs::Audits::answer_text))]
fn push_answer(into: &mut Text, answer: &Audit) -> Result<(), AllocError>
    ensures { OnOk result (into.new ≡ into.old ++ answer_text answer.now) }
{
    match answer {
        Audit::Yes => into.push_str("yes\n"),
        Audit::Line(turn) => {
            into.push_str("no line ")?;
            into.push_number(i128::from(*turn))?;
            into.push_str("\n")
        }
        Audit::Table(name) => {
            into.push_str("no table ")?;
            into.push_str(name.as_str())?;
            into.push_str("\n")
        }
        Audit::Verdict => into.push_str("no verdict\n"),
    }
}

fn status_of(answer: &Audit) -> Status
    ensures { result ≡ answer_status answer.now }
{
    match answer {
        Audit::Yes => Status::Done,
        Audit::Line(_) | Audit::Table(_) | Audit::Verdict => Status::No,
    }
}

/// What is printed of an audit's answer.
pub fn answer_shown(alloc: Global, answer: &Audit) -> Option<Printed>
    ensures { IfSome result (IsAnswer answer.now) }
{
    let mut text = Text::new(alloc);
    match push_answer(&mut text, answer) {
        Ok(()) => Some(Printed {
            status: status_of(answer),
            text,
        }),
        Err(_) => None,
    }
}
