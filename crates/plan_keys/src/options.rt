//! The options of a plan: their types and ranges.

ghost use Rattle.std.specs.Prelude.{◌≡◌, ◌<◌, ◌^◌, option_map};
ghost use Rattle.toml.specs.View.{view, table_view};
ghost use Rattle.plan_keys.specs.Options.{option_at, numbers_in, truths_in, version_two_in, within, options_within, version_two_within};
ghost use Rattle.base_values.specs.Faults.{Answers};

use crate::documents::{member_at, number_or, truth_or};
use crate::fault::{KeyFault, KeyRefusal};
use plan_data::Options;
use toml::{Table, Value};

/// The options that are numbers, as they are written. Their meanings are those of `Options`.
#[derive(Clone, Copy)]
pub struct NumberKeys {
    /// `chunk_size`.
    pub chunk_size: i64,
    /// `dml_batch_size`.
    pub dml_batch_size: i64,
    /// `default_retries`.
    pub default_retries: i64,
    /// `max_backlog`.
    pub max_backlog: i64,
    /// `drain_limit`.
    pub drain_limit: i64,
    /// `client_wait`.
    pub client_wait: i64,
    /// `tool_wait`.
    pub tool_wait: i64,
    /// `max_load`.
    pub max_load: i64,
    /// `turn_limit`.
    pub turn_limit: i64,
    /// Those that version 2 has besides.
    pub version_two: VersionTwoKeys,
}

/// The options that are numbers and that version 2 has besides, as they are written.
#[derive(Clone, Copy)]
pub struct VersionTwoKeys {
    /// `notes`.
    pub notes: i64,
    /// `note_every`.
    pub note_every: i64,
    /// `replica_step`.
    pub replica_step: i64,
    /// `replica_pause`.
    pub replica_pause: i64,
    /// `max_lag`.
    pub max_lag: i64,
}

/// The same, where each is in its range.
#[derive(Clone, Copy)]
pub struct VersionTwoNumbers {
    /// `notes`.
    pub notes: u32,
    /// `note_every`.
    pub note_every: u32,
    /// `replica_step`.
    pub replica_step: u32,
    /// `replica_pause`.
    pub replica_pause: u32,
    /// `max_lag`.
    pub max_lag: u32,
}

/// The options that are true or false. Their meanings are those of `Options`.
#[derive(Clone, Copy)]
pub struct TruthKeys {
    /// `approve_renamed_columns`.
    pub approve_renamed_columns: bool,
    /// `initially_drop_ghost_table`.
    pub initially_drop_ghost_table: bool,
    /// `initially_drop_old_table`.
    pub initially_drop_old_table: bool,
    /// `ok_to_drop_table`.
    pub ok_to_drop_table: bool,
    /// `postpone`.
    pub postpone: bool,
    /// `show_history`.
    pub show_history: bool,
    /// `show_turns`.
    pub show_turns: bool,
    /// `show_tables`.
    pub show_tables: bool,
    /// `show_replies`.
    pub show_replies: bool,
    /// `resume`, which version 2 has besides.
    pub resume: bool,
}

/// What is at a key of the options.
fn option_at<'a>(options: Option<&'a Table>, key: &str) -> Option<&'a Value>
    ensures { option_map (λ value. view value.now) result ≡ option_at key.now (option_map (λ table. table_view table.now) options.entry) }
{
    match options {
        None => None,
        Some(table) => member_at(table, key),
    }
}

/// The options that are numbers and that version 2 has besides.
#[tactic(auto, unfolding(crate::specs::Options::version_two_in))]
fn version_two_in(options: Option<&Table>) -> Result<VersionTwoKeys, KeyFault>
    ensures { Answers (λ numbers. numbers) result (version_two_in (option_map (λ table. table_view table.now) options.entry)) }
{
    let default = Options::default();
    let notes = number_or(default.notes, option_at(options, "notes"))?;
    let note_every = number_or(default.note_every, option_at(options, "note_every"))?;
    let replica_step = number_or(default.replica_step, option_at(options, "replica_step"))?;
    let replica_pause = number_or(default.replica_pause, option_at(options, "replica_pause"))?;
    let max_lag = number_or(default.max_lag, option_at(options, "max_lag"))?;
    Ok(VersionTwoKeys {
        notes,
        note_every,
        replica_step,
        replica_pause,
        max_lag,
    })
}

/// The options that are numbers.
#[tactic(auto, unfolding(crate::specs::Options::numbers_in))]
pub fn numbers_in(options: Option<&Table>) -> Result<NumberKeys, KeyFault>
    ensures { Answers (λ numbers. numbers) result (numbers_in (option_map (λ table. table_view table.now) options.entry)) }
{
    let default = Options::default();
    let chunk_size = number_or(default.chunk_size, option_at(options, "chunk_size"))?;
    let dml_batch_size = number_or(default.dml_batch_size, option_at(options, "dml_batch_size"))?;
    let default_retries = number_or(
        default.default_retries,
        option_at(options, "default_retries"),
    )?;
    let max_backlog = number_or(default.max_backlog, option_at(options, "max_backlog"))?;
    let drain_limit = number_or(default.drain_limit, option_at(options, "drain_limit"))?;
    let client_wait = number_or(default.client_wait, option_at(options, "client_wait"))?;
    let tool_wait = number_or(default.tool_wait, option_at(options, "tool_wait"))?;
    let max_load = number_or(default.max_load, option_at(options, "max_load"))?;
    let turn_limit = number_or(default.turn_limit, option_at(options, "turn_limit"))?;
    let version_two = version_two_in(options)?;
    Ok(NumberKeys {
        chunk_size,
        dml_batch_size,
        default_retries,
        max_backlog,
        drain_limit,
        client_wait,
        tool_wait,
        max_load,
        turn_limit,
        version_two,
    })
}

/// The options that are true or false.
#[tactic(auto, unfolding(crate::specs::Options::truths_in))]
pub fn truths_in(options: Option<&Table>) -> Result<TruthKeys, KeyFault>
    ensures { Answers (λ truths. truths) result (truths_in (option_map (λ table. table_view table.now) options.entry)) }
{
    let default = Options::default();
    let approve_renamed_columns = truth_or(
        default.approve_renamed_columns,
        option_at(options, "approve_renamed_columns"),
    )?;
    let initially_drop_ghost_table = truth_or(
        default.initially_drop_ghost_table,
        option_at(options, "initially_drop_ghost_table"),
    )?;
    let initially_drop_old_table = truth_or(
        default.initially_drop_old_table,
        option_at(options, "initially_drop_old_table"),
    )?;
    let ok_to_drop_table = truth_or(
        default.ok_to_drop_table,
        option_at(options, "ok_to_drop_table"),
    )?;
    let postpone = truth_or(default.postpone, option_at(options, "postpone"))?;
    let show_history = truth_or(default.show_history, option_at(options, "show_history"))?;
    let show_turns = truth_or(default.show_turns, option_at(options, "show_turns"))?;
    let show_tables = truth_or(default.show_tables, option_at(options, "show_tables"))?;
    let show_replies = truth_or(default.show_replies, option_at(options, "show_replies"))?;
    let resume = truth_or(default.resume, option_at(options, "resume"))?;
    Ok(TruthKeys {
        approve_renamed_columns,
        initially_drop_ghost_table,
        initially_drop_old_table,
        ok_to_drop_table,
        postpone,
        show_history,
        show_turns,
        show_tables,
        show_replies,
        resume,
    })
}

/// A number from low to high.
#[tactic(auto, unfolding(crate::specs::Options::within))]
pub fn within(low: u32, high: u32, number: i64) -> Result<u32, KeyFault>
    ensures { Answers (λ number. number) result (within low high number) }
{
    if number < i64::from(low) || i64::from(high) < number {
        Err(KeyFault::Refused(KeyRefusal::OutOfRange))
    } else {
        Ok(number as u32)
    }
}

/// The numbers that version 2 has besides, where each is in its range.
#[tactic(auto, unfolding(crate::specs::Options::version_two_within))]
fn version_two_within(numbers: VersionTwoKeys) -> Result<VersionTwoNumbers, KeyFault>
    ensures { Answers (λ numbers. numbers) result (version_two_within numbers) }
{
    let notes = within(0, 1_000, numbers.notes)?;
    let note_every = within(1, 100_000, numbers.note_every)?;
    let replica_step = within(0, 1_000, numbers.replica_step)?;
    let replica_pause = within(1, 1_000, numbers.replica_pause)?;
    let max_lag = within(1, 1_000, numbers.max_lag)?;
    Ok(VersionTwoNumbers {
        notes,
        note_every,
        replica_step,
        replica_pause,
        max_lag,
    })
}

/// The options, where each number is in its range.
#[tactic(auto, unfolding(crate::specs::Options::options_within))]
pub fn options_within(numbers: NumberKeys, truths: TruthKeys) -> Result<Options, KeyFault>
    ensures { Answers (λ options. options) result (options_within numbers truths) }
{
    let chunk_size = within(1, 100_000, numbers.chunk_size)?;
    let dml_batch_size = within(1, 1_000, numbers.dml_batch_size)?;
    let default_retries = within(1, 1_000, numbers.default_retries)?;
    let max_backlog = within(0, 100_000, numbers.max_backlog)?;
    let drain_limit = within(1, 100_000, numbers.drain_limit)?;
    let client_wait = within(1, 100_000, numbers.client_wait)?;
    let tool_wait = within(1, 100_000, numbers.tool_wait)?;
    let max_load = within(0, 64, numbers.max_load)?;
    let turn_limit = within(1, 1_000_000, numbers.turn_limit)?;
    let version_two = version_two_within(numbers.version_two)?;
    Ok(Options {
        chunk_size,
        dml_batch_size,
        default_retries,
        max_backlog,
        drain_limit,
        client_wait,
        tool_wait,
        max_load,
        turn_limit,
        notes: version_two.notes,
        note_every: version_two.note_every,
        replica_step: version_two.replica_step,
        replica_pause: version_two.replica_pause,
        max_lag: version_two.max_lag,
        resume: truths.resume,
        approve_renamed_columns: truths.approve_renamed_columns,
        initially_drop_ghost_table: truths.initially_drop_ghost_table,
        initially_drop_old_table: truths.initially_drop_old_table,
        ok_to_drop_table: truths.ok_to_drop_table,
        postpone: truths.postpone,
        show_history: truths.show_history,
        show_turns: truths.show_turns,
        show_tables: truths.show_tables,
        show_replies: truths.show_replies,
    })
}
