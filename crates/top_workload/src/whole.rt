//! The plan as a whole.

ghost use Rattle.std.specs.Prelude.{◌≡◌, ◌++◌, IfOk, OnOk};
ghost use Rattle.top_workload.specs.Workloads.{head_text, options_text, table_text, workload};

use crate::clients::push_clients;
use crate::rows::push_rows;
use base_values::Text;
use std::alloc::{AllocError, Global};

const HEAD: &str =
    "version = 1\ntable = \"g\"\nalter = \"ADD COLUMN s VARCHAR(8) NOT NULL DEFAULT 'new', MODIFY v BIGINT\"\nclients = [\n";

const OPTIONS: &str =
    "]\n[options]\nchunk_size = 100\nturn_limit = 1000000\nshow_tables = false\nshow_replies = false\n";

const TABLE: &str =
    "[[tables]]\ncreate = \"CREATE TABLE g (id BIGINT PRIMARY KEY, u VARCHAR(24), v INT, UNIQUE KEY u (u))\"\nrows = [\n";

#[tactic(auto, unfolding(crate::specs::Workloads::head_text))]
fn push_head(into: &mut Text) -> Result<(), AllocError>
    ensures { OnOk result (into.new ≡ into.old ++ head_text) }
{
    into.push_str(HEAD)
}

#[tactic(auto, unfolding(crate::specs::Workloads::options_text))]
fn push_options(into: &mut Text) -> Result<(), AllocError>
    ensures { OnOk result (into.new ≡ into.old ++ options_text) }
{
    into.push_str(OPTIONS)
}

#[tactic(auto, unfolding(crate::specs::Workloads::table_text))]
fn push_table(into: &mut Text) -> Result<(), AllocError>
    ensures { OnOk result (into.new ≡ into.old ++ table_text) }
{
    into.push_str(TABLE)
}

/// The plan of a number.
///
/// It has at most 20,000 rows and 32 clients of 30 statements each, and about 700 kilobytes at most.
#[tactic(auto, unfolding(crate::specs::Workloads::workload))]
pub fn generate(alloc: Global, number: u64) -> Result<Text, AllocError>
    ensures { IfOk result (λ text. text ≡ workload number) }
{
    let mut text = Text::new(alloc);
    push_head(&mut text)?;
    push_clients(&mut text, number)?;
    push_options(&mut text)?;
    push_table(&mut text)?;
    push_rows(&mut text, number)?;
    text.push_str("]\n")?;
    Ok(text)
}
