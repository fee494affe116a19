//! Theorems over texts, of functions that do nothing and whose contracts are the laws: of schemas that are read, printed or
//! altered (`schemas`, `alters`, `values`), of orders of turns (`orders`), of traces (`traces`), and of what `generate` prints
//! (`workload`).
#![tactic(auto)]

pub mod alters;
pub mod orders;
pub mod schemas;
pub mod traces;
pub mod values;
pub mod workload;
