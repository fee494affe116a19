//! DROP COLUMN.

ghost use Rattle.sql_change.specs.ClauseResults.{dropped};
ghost use Rattle.base_values.specs.Faults.{Answers};
ghost use Rattle.sql_change.specs.AlteredSoFar.{Stands};

use crate::code::{AlterCode, AlterFault};
use crate::columns::{column_named, is_in_keys};
use crate::so_far::AlteredSoFar;
use base_values::Name;
use std::alloc::Global;

/// The table without a column.
#[tactic(auto, unfolding(crate::specs::ClauseResults::dropped))]
pub fn dropped(
    alloc: Global,
    standing: &AlteredSoFar,
    name: &Name,
) -> Result<AlteredSoFar, AlterFault>
    requires { Stands standing.now }
    ensures { Answers (λ standing. standing) result (dropped standing.now name.now) }
{
    match column_named(standing.schema.columns.as_slice(), name) {
        None => Err(AlterFault::Refused(AlterCode::UnknownName)),
        Some((place, _)) => {
            if is_in_keys(standing.schema.uniques.as_slice(), place) {
                return Err(AlterFault::Refused(AlterCode::KeyColumnDropped));
            }
            Ok(standing.taken_out(alloc, place)?)
        }
    }
}
