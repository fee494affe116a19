//! What a replica that lags looks at of a call.

/// What a call is for a replica that hands the log on, and that holds back what needs more of the log than it holds.
#[derive(Clone, Copy)]
pub enum FeedCall {
    /// The replica never holds it back.
    Free,
    /// The applier reads the log.
    Read {
        /// From which event on.
        position: u64,
        /// How many events at most.
        limit: u32,
    },
    /// The copier begins a chunk, or the locker an attempt to cut over.
    Start,
}
