//! What holds of all values, keys and spans: each function's contract is a law, and its body is empty.

ghost use Rattle.base_values.specs.Laws.{ValuesAreOrdered, KeysAreOrdered, StoresAgain, StoresWhatFits, StoresNullWhereNullable, KeepsKind, SeeksWhatIsStored, MeetsBothWays, MeetsAtCommonKeys, PointsMeetWhatHasThem, PrintsApart};

/// The order of values is total, and two values that it ties are one.
pub fn values_are_ordered()
    ensures { ValuesAreOrdered }
{}

/// The order of keys is total, and two keys that it ties are one.
pub fn keys_are_ordered()
    ensures { KeysAreOrdered }
{}

/// What is stored is stored again as itself.
pub fn stored_values_store_again()
    ensures { StoresAgain }
{}

/// What is stored fits its column, and what fits and is no null is stored as itself.
pub fn stored_values_fit()
    ensures { StoresWhatFits }
{}

/// Only a null is stored as a null, and only where the column may be null.
pub fn nulls_are_stored_where_nullable()
    ensures { StoresNullWhereNullable }
{}

/// What is stored and no null, and what is wanted, is of the column's kind.
pub fn columns_keep_their_kind()
    ensures { KeepsKind }
{}

/// Where a value is stored and no null, the same value is wanted.
pub fn stored_values_are_wanted()
    ensures { SeeksWhatIsStored }
{}

/// Which of two spans is named first doesn't matter.
pub fn spans_meet_both_ways()
    ensures { MeetsBothWays }
{}

/// Two spans that have a key in common leave room for it.
pub fn spans_meet_at_common_keys()
    ensures { MeetsAtCommonKeys }
{}

/// The span of one key has that key alone, and meets just the spans that have it.
pub fn points_meet_what_has_them()
    ensures { PointsMeetWhatHasThem }
{}

/// Values that print alike are one value.
pub fn values_print_apart()
    ensures { PrintsApart }
{}
