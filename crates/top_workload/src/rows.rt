//! The opening rows.

ghost use Rattle.std.specs.Prelude.{◌≡◌, ◌≤◌, ◌++◌, OnOk};
ghost use Rattle.std.specs.Fmt.{decimal};
ghost use Rattle.top_workload.specs.Draws.{state_after};
ghost use Rattle.top_workload.specs.Workloads.{row_count, row_line, rows_text};

use crate::draws::Draws;
use base_values::Text;
use itoa::Buffer;
use std::alloc::AllocError;

/// Adds a number in decimal.
pub(crate) fn push_decimal(into: &mut Text, number: u64) -> Result<(), AllocError>
    ensures { OnOk result (into.new ≡ into.old ++ decimal number) }
{
    into.push_str(Buffer::new().format(number))
}

/// How many rows the table opens with.
pub(crate) fn row_count(number: u64) -> u64
    ensures { result ≡ row_count number }
{
    1000 * (1 + number % 20)
}

#[tactic(auto, unfolding(crate::specs::Workloads::row_line))]
fn push_row(into: &mut Text, key: u64, value: u64) -> Result<(), AllocError>
    ensures { OnOk result (into.new ≡ into.old ++ row_line key value) }
{
    into.push_str("\"(")?;
    push_decimal(into, key)?;
    into.push_str(", 'u")?;
    push_decimal(into, key)?;
    into.push_str("', ")?;
    push_decimal(into, value)?;
    into.push_str(")\",\n")
}

/// Adds all rows.
pub(crate) fn push_rows(into: &mut Text, number: u64) -> Result<(), AllocError>
    ensures { OnOk result (into.new ≡ into.old ++ rows_text number) }
{
    let mut draws = Draws { state: number };
    for place in 0..row_count(number) {
        push_row(into, 2 * (place + 1), draws.draw() % 1000)?;
    }
    Ok(())
}

/// The draws after those of the rows.
pub(crate) fn draws_after_rows(number: u64) -> Draws
    ensures { result.state ≡ state_after number (row_count number) }
{
    let mut draws = Draws { state: number };
    for _place in 0..row_count(number) {
        draws.draw();
    }
    draws
}
