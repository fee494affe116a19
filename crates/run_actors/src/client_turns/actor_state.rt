//! What is kept of a client.

/// How far a client is in its script.
#[derive(Clone, Copy)]
pub struct ClientState {
    /// How many lines of the script it has done.
    pub place: usize,
    /// Whether its transaction is open.
    pub is_inside: bool,
    /// Whether its line waits.
    pub waits: bool,
    /// Whether its session was lost, so that it asks nothing more.
    pub is_lost: bool,
}
