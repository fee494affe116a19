//! The options of a plan.

ghost use Rattle.std.specs.Prelude.{◌≡◌};

/// The options of a plan: gh-ost's flags where it has them. Ranges and defaults are this project's rule.
#[derive(Clone, Copy)]
pub struct Options {
    /// How many rows a chunk has at most (`--chunk-size`): 1 to 100,000.
    pub chunk_size: u32,
    /// How many events of the log a batch applies at most (`--dml-batch-size`): 1 to 1,000.
    pub dml_batch_size: u32,
    /// How often a task may fail before the migration is given up (`--default-retries`): 1 to 1,000.
    pub default_retries: u32,
    /// How many events may be unread where a cut-over begins: 0 to 100,000.
    pub max_backlog: u32,
    /// How many turns the applier has, once the tables are locked, to come to the end of the log: 1 to 100,000.
    pub drain_limit: u32,
    /// How often a client's wait is polled before it times out: 1 to 100,000.
    pub client_wait: u32,
    /// How often a wait of the tool is polled before it times out: 1 to 100,000.
    pub tool_wait: u32,
    /// How many transactions of clients may be open before the tool is throttled (`--max-load`): 0 to 64.
    pub max_load: u32,
    /// How many turns a run takes at most: 1 to 1,000,000.
    pub turn_limit: u32,
    /// How many notes the tool writes (heartbeats and checkpoints): 0 to 1,000.
    pub notes: u32,
    /// How many turns come between two notes at least: 1 to 100,000.
    pub note_every: u32,
    /// How many events of the log the replica takes over at a time: 0, which means that there is none, to 1,000.
    pub replica_step: u32,
    /// After how many turns it takes over the next ones: 1 to 1,000.
    pub replica_pause: u32,
    /// How many events of the changelog it may lack where a chunk or an attempt begins (`--max-lag-millis`, in events): 1 to 1,000.
    pub max_lag: u32,
    /// Whether a new tool finishes a run that has taken all its turns, hasn't ended and left a checkpoint (`--resume`).
    pub resume: bool,
    /// Whether the ALTER may give columns other names (`--approve-renamed-columns`).
    pub approve_renamed_columns: bool,
    /// Whether a new table that an earlier run left is dropped (`--initially-drop-ghost-table`).
    pub initially_drop_ghost_table: bool,
    /// Whether an old table that an earlier run left is dropped (`--initially-drop-old-table`).
    pub initially_drop_old_table: bool,
    /// Whether the old table is dropped at the end (`--ok-to-drop-table`).
    pub ok_to_drop_table: bool,
    /// Whether the cut-over waits for the operator's word (`--postpone-cut-over-flag-file`).
    pub postpone: bool,
    /// Whether the report has the history.
    pub show_history: bool,
    /// Whether the report has the order of turns.
    pub show_turns: bool,
    /// Whether the report has the rows of the tables that are left.
    pub show_tables: bool,
    /// Whether the report has the replies of the clients.
    pub show_replies: bool,
}

impl Default for Options {
    ghost use Rattle.std.specs.Prelude.{◌≡◌};
    ghost use Rattle.plan_data.specs.PlanOptions.{default_options};

    ghost is_default = { λ options. options ≡ default_options };

    fn default() -> Options {
        Options {
            chunk_size: 1_000,
            dml_batch_size: 10,
            default_retries: 60,
            max_backlog: 100,
            drain_limit: 2_000,
            client_wait: 20_000,
            tool_wait: 2_000,
            max_load: 64,
            turn_limit: 200_000,
            notes: 0,
            note_every: 100,
            replica_step: 0,
            replica_pause: 1,
            max_lag: 10,
            resume: false,
            approve_renamed_columns: false,
            initially_drop_ghost_table: false,
            initially_drop_old_table: false,
            ok_to_drop_table: false,
            postpone: false,
            show_history: false,
            show_turns: false,
            show_tables: true,
            show_replies: true,
        }
    }
}
