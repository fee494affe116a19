//! What a statement is to do: its columns, values and keys are checked against its table's schema, before any row is
//! looked at.
#![tactic(auto)]

mod columns;
mod drawn_numbers;
mod drawn_rows;
mod given_values;
mod keys;
mod parts;
mod ranges;
mod reach;
mod refusals;
mod rows;
mod work;

pub use drawn_numbers::numbered;
pub use drawn_rows::{drawn_row, draws};
pub use given_values::after_given;
pub use refusals::{Checked, refuses, refuses_value};
pub use rows::new_row;
pub use work::work_of;
