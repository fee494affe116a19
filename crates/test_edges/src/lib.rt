//! Tests of the edges and of the turn queue, of what no program shows: sources and sinks that fail, memory that is short, and
//! threads.
#![tactic(auto)]

#[cfg(test)]
mod edges;
#[cfg(test)]
mod turn_queue;
