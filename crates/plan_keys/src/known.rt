//! Which keys a plan has, and which it has to have.

ghost use Rattle.std.specs.Prelude.{◌≡◌, is_some, option_map};
ghost use Rattle.std.specs.Str.{bytes_eq};
ghost use Rattle.toml.specs.Data.{as_array, as_table};
ghost use Rattle.toml.specs.View.{view, table_view, items_view};
ghost use Rattle.plan_keys.specs.Known.{is_plan_key, is_table_key, is_number_key, is_truth_key, is_note_key, is_replica_key, is_resume_key, is_option_key, is_one, is_first_version, all_pass, all_items_pass, array_at, table_at, knows_keys, has_key, has_create, has_needed_keys};
ghost use Rattle.plan_keys.specs.Walks.{all_keys, all_items};

use crate::documents::member_at;
use toml::{Table, Value};

fn is_word(key: &[u8], known: &str) -> bool
    ensures { result ≡ bytes_eq key.now known.now }
{
    key == known.as_bytes()
}

#[tactic(auto, unfolding(crate::specs::Known::is_plan_key))]
fn is_plan_key(key: &[u8]) -> bool
    ensures { result ≡ is_plan_key key.now }
{
    is_word(key, "version")
        || is_word(key, "table")
        || is_word(key, "alter")
        || is_word(key, "tables")
        || is_word(key, "clients")
        || is_word(key, "operator")
        || is_word(key, "faults")
        || is_word(key, "turns")
        || is_word(key, "options")
}

#[tactic(auto, unfolding(crate::specs::Known::is_table_key))]
fn is_table_key(key: &[u8]) -> bool
    ensures { result ≡ is_table_key key.now }
{
    is_word(key, "create") || is_word(key, "rows")
}

#[tactic(auto, unfolding(crate::specs::Known::is_number_key))]
fn is_number_key(key: &[u8]) -> bool
    ensures { result ≡ is_number_key key.now }
{
    is_word(key, "chunk_size")
        || is_word(key, "dml_batch_size")
        || is_word(key, "default_retries")
        || is_word(key, "max_backlog")
        || is_word(key, "drain_limit")
        || is_word(key, "client_wait")
        || is_word(key, "tool_wait")
        || is_word(key, "max_load")
        || is_word(key, "turn_limit")
}

#[tactic(auto, unfolding(crate::specs::Known::is_truth_key))]
fn is_truth_key(key: &[u8]) -> bool
    ensures { result ≡ is_truth_key key.now }
{
    is_word(key, "approve_renamed_columns")
        || is_word(key, "initially_drop_ghost_table")
        || is_word(key, "initially_drop_old_table")
        || is_word(key, "ok_to_drop_table")
        || is_word(key, "postpone")
        || is_word(key, "show_history")
        || is_word(key, "show_turns")
        || is_word(key, "show_tables")
        || is_word(key, "show_replies")
}

#[tactic(auto, unfolding(crate::specs::Known::is_note_key))]
fn is_note_key(key: &[u8]) -> bool
    ensures { result ≡ is_note_key key.now }
{
    is_word(key, "notes") || is_word(key, "note_every")
}

#[tactic(auto, unfolding(crate::specs::Known::is_replica_key))]
fn is_replica_key(key: &[u8]) -> bool
    ensures { result ≡ is_replica_key key.now }
{
    is_word(key, "replica_step") || is_word(key, "replica_pause") || is_word(key, "max_lag")
}

#[tactic(auto, unfolding(crate::specs::Known::is_resume_key))]
fn is_resume_key(key: &[u8]) -> bool
    ensures { result ≡ is_resume_key key.now }
{
    is_word(key, "resume")
}

fn is_option_key(first: bool, key: &[u8]) -> bool
    ensures { result ≡ is_option_key first key.now }
{
    is_number_key(key)
        || is_truth_key(key)
        || (!first && (is_note_key(key) || is_replica_key(key) || is_resume_key(key)))
}

/// Whether the document says that it is of version 1, which has fewer options than version 2.
#[tactic(auto, unfolding(crate::specs::Known::is_first_version))]
fn is_first_version(document: &Table) -> bool
    ensures { result ≡ is_first_version (table_view document.now) }
{
    match member_at(document, "version") {
        None => false,
        Some(value) => match value.as_integer() {
            None => false,
            Some(number) => number == 1,
        },
    }
}

fn knows_plan_keys(table: &Table) -> bool
    ensures { result ≡ all_keys is_plan_key (table_view table.now) }
{
    table.keys().all(|key| is_plan_key(key.as_bytes()))
}

fn knows_table_keys(table: Option<&Table>) -> bool
    ensures { result ≡ all_pass is_table_key (option_map (λ table. table_view table.now) table.entry) }
{
    match table {
        None => true,
        Some(table) => table.keys().all(|key| is_table_key(key.as_bytes())),
    }
}

fn knows_option_keys(first: bool, table: Option<&Table>) -> bool
    ensures { result ≡ all_pass (is_option_key first) (option_map (λ table. table_view table.now) table.entry) }
{
    match table {
        None => true,
        Some(table) => table.keys().all(|key| is_option_key(first, key.as_bytes())),
    }
}

fn knows_items_keys(items: &[Value]) -> bool
    ensures { result ≡ all_items (λ value. all_pass is_table_key (as_table value)) (items_view items.now) }
{
    items.iter().all(|item| knows_table_keys(item.as_table()))
}

/// The items of an array at a key.
fn array_at<'a>(table: &'a Table, key: &str) -> Option<&'a [Value]>
    ensures { option_map (λ items. items_view items.now) result ≡ array_at key.now (table_view table.now) }
{
    match member_at(table, key) {
        None => None,
        Some(value) => match value.as_array() {
            None => None,
            Some(items) => Some(items.as_slice()),
        },
    }
}

/// The table at a key.
fn table_at<'a>(table: &'a Table, key: &str) -> Option<&'a Table>
    ensures { option_map (λ table. table_view table.now) result ≡ table_at key.now (table_view table.now) }
{
    match member_at(table, key) {
        None => None,
        Some(value) => value.as_table(),
    }
}

fn knows_tables_keys(items: Option<&[Value]>) -> bool
    ensures { result ≡ all_items_pass (λ value. all_pass is_table_key (as_table value)) (option_map (λ items. items_view items.now) items.entry) }
{
    match items {
        None => true,
        Some(items) => knows_items_keys(items),
    }
}

/// Whether each key is one of a plan of its version.
pub fn knows_keys(document: &Table) -> bool
    ensures { result ≡ knows_keys (table_view document.now) }
{
    knows_plan_keys(document)
        && knows_tables_keys(array_at(document, "tables"))
        && knows_option_keys(is_first_version(document), table_at(document, "options"))
}

fn has_key(table: &Table, key: &str) -> bool
    ensures { result ≡ has_key key.now (table_view table.now) }
{
    match member_at(table, key) {
        None => false,
        Some(_) => true,
    }
}

fn has_create(table: Option<&Table>) -> bool
    ensures { result ≡ has_create (option_map (λ table. table_view table.now) table.entry) }
{
    match table {
        None => true,
        Some(table) => has_key(table, "create"),
    }
}

fn have_create(items: &[Value]) -> bool
    ensures { result ≡ all_items (λ value. has_create (as_table value)) (items_view items.now) }
{
    items.iter().all(|item| has_create(item.as_table()))
}

fn tables_have_create(items: Option<&[Value]>) -> bool
    ensures { result ≡ all_items_pass (λ value. has_create (as_table value)) (option_map (λ items. items_view items.now) items.entry) }
{
    match items {
        None => true,
        Some(items) => have_create(items),
    }
}

/// Whether the keys that a plan has to have are there.
pub fn has_needed_keys(document: &Table) -> bool
    ensures { result ≡ has_needed_keys (table_view document.now) }
{
    has_key(document, "version")
        && has_key(document, "table")
        && has_key(document, "alter")
        && has_key(document, "tables")
        && tables_have_create(array_at(document, "tables"))
}
