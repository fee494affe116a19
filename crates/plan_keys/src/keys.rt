//! What the keys of a plan's document say.

ghost use Rattle.std.specs.Prelude.{◌≡◌, ◌≤◌, length, IfOk};
ghost use Rattle.toml.specs.View.{table_view};
ghost use Rattle.plan_data.specs.declared.plan.TheConstants.{CLIENT_LIMIT};
ghost use Rattle.plan_keys.specs.PlanKeys.{typed_of, in_range, few, keys_of, text_data, typed_data, key_data};
ghost use Rattle.base_values.specs.Faults.{Answers};

use crate::documents::{member_at, needed_number, table_or_none};
use crate::fault::{KeyFault, KeyRefusal};
use crate::known::{has_needed_keys, knows_keys};
use crate::limits::has_too_many;
use crate::options::{NumberKeys, TruthKeys, numbers_in, options_within, truths_in, within};
use crate::texts::{PlanTexts, texts_of};
use plan_data::Options;
use std::alloc::Global;
use toml::Table;

/// What the keys of a plan say.
#[derive(Drop)]
pub struct PlanKeys<'a> {
    /// The plan's version, 1 or 2.
    pub version: u32,
    /// What the other keys say, still as texts: schemas, rows, scripts and orders.
    pub texts: PlanTexts<'a>,
    /// The options, within their ranges.
    pub options: Options,
}

/// What is at the keys, each value of its type.
#[derive(Drop)]
pub struct TypedKeys<'a> {
    /// The plan's version.
    pub version: i64,
    /// What the other keys say, still as texts: schemas, rows, scripts and orders.
    pub texts: PlanTexts<'a>,
    /// The options that are numbers.
    pub numbers: NumberKeys,
    /// The options that are true or false.
    pub truths: TruthKeys,
}

#[tactic(auto, unfolding(crate::specs::PlanKeys::typed_of))]
fn typed_of<'a>(alloc: Global, document: &'a Table) -> Result<TypedKeys<'a>, KeyFault>
    ensures { Answers typed_data result (typed_of (table_view document.now)) }
{
    let version = needed_number(member_at(document, "version"))?;
    let texts = texts_of(alloc, document)?;
    let options = table_or_none(member_at(document, "options"))?;
    let numbers = numbers_in(options)?;
    let truths = truths_in(options)?;
    Ok(TypedKeys {
        version,
        texts,
        numbers,
        truths,
    })
}

#[tactic(auto, unfolding(crate::specs::PlanKeys::in_range))]
fn in_range(keys: TypedKeys<'_>) -> Result<PlanKeys<'_>, KeyFault>
    ensures { Answers key_data result (in_range (typed_data keys.entry)) }
{
    let version = within(1, 2, keys.version)?;
    let options = options_within(keys.numbers, keys.truths)?;
    Ok(PlanKeys {
        version,
        texts: keys.texts,
        options,
    })
}

fn few(keys: PlanKeys<'_>) -> Result<PlanKeys<'_>, KeyFault>
    ensures keys { Answers key_data result (few (key_data keys.entry)) }
    ensures clients { IfOk result (λ keys. length keys.texts.clients.items ≤ CLIENT_LIMIT) }
{
    if has_too_many(&keys.texts) {
        Err(KeyFault::Refused(KeyRefusal::TooMany))
    } else {
        Ok(keys)
    }
}

/// What the keys of a plan's document say. The plan has at most 64 clients.
#[tactic(auto, unfolding(crate::specs::PlanKeys::keys_of))]
pub fn keys_of<'a>(alloc: Global, document: &'a Table) -> Result<PlanKeys<'a>, KeyFault>
    ensures keys { Answers key_data result (keys_of (table_view document.now)) }
    ensures few { IfOk result (λ keys. length keys.texts.clients.items ≤ CLIENT_LIMIT) }
{
    if !knows_keys(document) {
        return Err(KeyFault::Refused(KeyRefusal::UnknownKey));
    }
    if !has_needed_keys(document) {
        return Err(KeyFault::Refused(KeyRefusal::MissingKey));
    }
    let typed = typed_of(alloc, document)?;
    let keys = in_range(typed)?;
    few(keys)
}
