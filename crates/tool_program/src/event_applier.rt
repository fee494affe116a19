//! The applier: it applies what was logged of a table to the table that replaces it, batch by batch.

mod answers;
mod applier;
mod batch_plan;
mod calls;
mod keys;
mod statements;

pub use applier::{Applier, ApplyStep, Batch, Part};
pub use statements::name_at;
