//! What holds of all rows, tables and databases: each function's contract is a law.

ghost use Rattle.table_store.specs.Laws.{PutKeepsTables, RemoveKeepsTables, PutIsFound, RemovedIsGone, PutAmongSome, TestsCommute, PutsCommute, PutAndRemoveUndo, NewRowsArePut, ChangesAreFound, ChangesKeepDatabases, FoundWhereItIs};

use base_values::laws::nulls_are_stored_where_nullable;

/// A row that clashes with none has a new key, and a table with it put in is a table.
pub fn put_keeps_tables()
    ensures { PutKeepsTables }
{
    nulls_are_stored_where_nullable();
}

/// A table without the row of a key is a table.
pub fn remove_keeps_tables()
    ensures { RemoveKeepsTables }
{}

/// What is found after a put.
pub fn put_is_found()
    ensures { PutIsFound }
{}

/// What is found after a removal.
pub fn removed_is_gone()
    ensures { RemovedIsGone }
{}

/// The rows that pass a test, with a row put in.
pub fn put_among_some()
    ensures { PutAmongSome }
{}

/// Two tests may be made in either order.
pub fn tests_commute()
    ensures { TestsCommute }
{}

/// Rows of different keys may be put in either order.
pub fn puts_commute()
    ensures { PutsCommute }
{}

/// A put and a removal undo each other.
pub fn put_and_remove_undo()
    ensures { PutAndRemoveUndo }
{}

/// A row of a new key is put among the rows.
pub fn new_rows_are_put()
    ensures { NewRowsArePut }
{}

/// A change of one table is found there, and nowhere else.
pub fn changes_are_found()
    ensures { ChangesAreFound }
{}

/// A change of one table that leaves it a table leaves a database.
pub fn changes_keep_databases()
    ensures { ChangesKeepDatabases }
{}

/// A table is found exactly where one has the name.
pub fn found_where_it_is()
    ensures { FoundWhereItIs }
{}
