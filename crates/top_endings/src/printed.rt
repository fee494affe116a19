//! What is printed.

ghost use Rattle.std.specs.Prelude.{◌≡◌, IfSome};
ghost use Rattle.top_endings.specs.declared.status.Status.TheVariants as statuses;
ghost use Rattle.top_endings.specs.Texts.{usage_text, read_fault_text};
ghost use Rattle.top_workload.specs.Workloads.{workload};

use crate::status::Status;
use base_values::Text;
use std::alloc::Global;
use top_workload::generate;

/// What is printed, and the status that it has where it is printed whole.
#[derive(Drop)]
pub struct Printed {
    /// The program's exit status, where the text is printed whole.
    pub status: Status,
    /// All that goes to standard output.
    pub text: Text,
}

/// What is printed in place of a report.
fn shown(alloc: Global, status: Status, text: &str) -> Option<Printed>
    ensures { IfSome result (λ printed. printed ≡ record { status = status; text = text.now }) }
{
    let mut copy = Text::new(alloc);
    match copy.push_str(text) {
        Ok(()) => Some(Printed { status, text: copy }),
        Err(_) => None,
    }
}

/// What faulty words get.
pub fn usage_shown(alloc: Global) -> Option<Printed>
    ensures { IfSome result (λ printed. printed ≡ record { status = statuses.Usage; text = usage_text }) }
{
    shown(
        alloc,
        Status::Usage,
        "usage: check | replay | run [--workers N] | generate N | trace | audit | rebuild [--workers N]\n",
    )
}

/// What is printed where the source failed.
pub fn read_fault_shown(alloc: Global) -> Option<Printed>
    ensures { IfSome result (λ printed. printed ≡ record { status = statuses.ReadFault; text = read_fault_text }) }
{
    shown(alloc, Status::ReadFault, "read fault\n")
}

/// What is printed of a number: its plan.
pub fn workload_shown(alloc: Global, number: u64) -> Option<Printed>
    ensures { IfSome result (λ printed. printed ≡ record { status = statuses.Done; text = workload number }) }
{
    match generate(alloc, number) {
        Ok(text) => Some(Printed {
            status: Status::Done,
            text,
        }),
        Err(_) => None,
    }
}
