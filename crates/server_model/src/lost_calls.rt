//! What a journal keeps of a call that was lost before it was done.

ghost use Rattle.std.specs.Prelude.{◌≡◌, Some};
ghost use Rattle.server_model.specs.declared.request.Request.{Request};
ghost use Rattle.server_model.specs.declared.request.Request.TheVariants.{Do};
ghost use Rattle.server_model.specs.LostCalls.{begins_with_zero, is_zero, lost_of};

use crate::request::Request;
use base_script::Statement;
use base_values::Value;
use std::snapshot::Snapshot;

/// What is kept of a call that was lost before it was done.
#[derive(Clone, Copy)]
pub enum LostCall {
    /// That it is a REPLACE, and whether its row begins with the number 0.
    Replace(bool),
    /// That it is none.
    Other,
}

/// Whether a value is the number 0.
pub fn is_zero(value: &Value) -> bool
    ensures { result ≡ is_zero value.now }
{
    match value {
        Value::Num(number) => *number == 0,
        _ => false,
    }
}

/// Whether a row begins with the number 0.
fn begins_with_zero(row: &[Value]) -> bool
    ensures { result ≡ begins_with_zero row.now }
{
    match row {
        [first, ..] => is_zero(first),
        [] => false,
    }
}

/// What is kept of a statement that was lost before it was done.
pub fn lost_statement(statement: &Statement) -> LostCall
    ensures { Some result ≡ lost_of (Do statement.now) }
{
    match statement {
        Statement::Replace { values, .. } => {
            LostCall::Replace(begins_with_zero(values.as_slice()))
        }
        _ => LostCall::Other,
    }
}

/// A snapshot has no bytes: that of one request is that of any.
fn of_any(shown: Snapshot<Request>) -> Snapshot<Request>
    ghost request: { Request }
    ensures { result.value ≡ request }
{
    shown
}

/// What a call asked that was lost before it was done. It has no bytes: what it asked is what the proof of the call gives.
pub(crate) fn lost_request() -> Snapshot<Request>
    ghost request: { Request }
    ensures { result.value ≡ request }
{
    of_any(Snapshot::of(&Request::Commit))
}

/// What a lost call asked that asked what is shown here.
fn lost_as(shown: &Snapshot<Request>) -> Snapshot<Request>
    ghost request: { Request }
    requires { shown.now.value ≡ request }
    ensures { result.value ≡ request }
{
    let _ = shown;
    lost_request()
}

/// The same call once more.
pub(crate) fn lost_again(shown: &Snapshot<Request>) -> Snapshot<Request>
    ensures { result.value ≡ shown.now.value }
{
    lost_as(shown)
}
