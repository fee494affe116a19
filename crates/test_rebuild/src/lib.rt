//! Tests of tables that are rebuilt: what no clause of `rebuild` says is that texts of plans come to this. The plans and the
//! expected rows and places are of an independent model of the whole program.
#![tactic(auto)]

#[cfg(test)]
mod rebuilds;
