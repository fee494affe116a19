//! What holds of the numbers that are drawn for AUTO_INCREMENT columns: functions that do nothing, whose contracts are the laws.
//! That in each run of an accepted plan the numbers of every table rise, over the RENAME too, is proved here from laws over journals,
//! and stated where they are: `top_call::draws`.
#![tactic(auto)]

ghost use Rattle.law_draws.specs.ColumnValues.{ValuesStayBelow};
ghost use Rattle.law_draws.specs.LockedCounters.{LockedCountersStay};
ghost use Rattle.law_draws.specs.Numbers.{NumbersAreAbove};
ghost use Rattle.law_draws.specs.OtherTables.{OtherTablesDraw};
ghost use Rattle.law_draws.specs.SmallNumbers.{CountersStaySmall, GivenValuesAreSmall};

/// A turn that neither copies into a table of a name nor makes, drops or renames one leaves the values of its AUTO_INCREMENT column
/// below its counter, also those that live sessions wrote and didn't commit.
pub fn values_stay_below()
    ensures { ValuesStayBelow }
{}

/// Each number that is drawn from a table which no turn copies into, makes, drops or renames is its counter, and above each value of
/// its column, committed or written by a live session.
pub fn numbers_are_above()
    ensures { NumbersAreAbove }
{}

/// While a session holds a table's name exclusively no other session's turn moves the table's counter, but one that makes, drops or renames
/// a table of that name, or sets its counter.
pub fn locked_counters_stay()
    ensures { LockedCountersStay }
{}

/// A statement gives an AUTO_INCREMENT column no value that its kind doesn't store, and so a counter behind it is 2^63 at most.
pub fn given_values_are_small()
    ensures { GivenValuesAreSmall }
{}

/// A counter that is 2^63 or more rises by one at most, and only where a number is drawn.
pub fn counters_stay_small()
    ensures { CountersStaySmall }
{}

/// In every journal that is kept, a number that is drawn from a table that neither is the migrated one nor has a name of the tool's is
/// drawn by a client, is the table's counter, and is above each number that was drawn from the table before, and above every value of
/// its column, committed or written by a live session.
pub fn other_tables_draw()
    ensures { OtherTablesDraw }
{}
