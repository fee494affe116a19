//! How far the notes are.

/// Which row of a note comes next.
#[derive(Clone, Copy)]
pub enum NoteStep {
    /// The next note's heartbeat, once enough turns have gone by.
    Waiting,
    /// The checkpoint of the note that was begun last.
    Checking,
    /// A heartbeat at once: its note begins again.
    Again,
}

/// How far the notes of a run are.
#[derive(Clone, Copy)]
pub struct Notes {
    /// How many notes have their heartbeat.
    pub begun: u32,
    /// How many turns stand behind the last row of a note.
    pub behind: u64,
    /// What comes next.
    pub step: NoteStep,
}

/// A row of a note.
#[derive(Clone, Copy)]
pub enum NoteRow {
    /// The heartbeat of this number.
    Heartbeat(u32),
    /// The checkpoint: it says how far the migration is now.
    Checkpoint,
}
