//! What holds of all rows in order: each function's contract is a law.

ghost use Rattle.base_values.specs.GhoSchema.Laws.{PutKeepsOrder};

use crate::laws::keys_are_ordered;

/// A row that is put among rows leaves them in order.
pub fn put_keeps_order()
    ensures { PutKeepsOrder }
{
    keys_are_ordered();
}
