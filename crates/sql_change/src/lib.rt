//! The schema that an ALTER leaves, and where the values of its columns come from.
#![tactic(auto)]

mod additions;
mod alters;
mod changes;
mod code;
mod columns;
mod conversions;
mod drops;
mod index;
mod mapping;
mod places;
mod renames;
mod so_far;

pub use alters::altered;
pub use code::{AlterCode, AlterFault};
