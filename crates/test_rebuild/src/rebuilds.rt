//! Plans whose table is rebuilt, with the events that their clients' statements leave.

use base_edges::OpenGate;
use base_values::{Change, Fault, Name, Row, RowEvent, Text, print_row};
use proof_plans::read_accepted_plan;
use run_rebuild::rebuild;
use std::alloc::{AllocError, Global};
use std::test::Fail;
use std::thread::Threads;
use table_store::paged_tables::row_pages::Table;
use test_lines::{CallFault, row_of};

// An event: of a row before and a row after, where they are written.
fn event_of(alloc: Global, name: &str, before: &str, after: &str) -> Result<RowEvent, CallFault> {
    let change = match (before, after) {
        ("", _) => Change::Write(row_of(alloc, after)?),
        (_, "") => Change::Delete(row_of(alloc, before)?),
        _ => Change::Update(row_of(alloc, before)?, row_of(alloc, after)?),
    };
    Ok(RowEvent {
        table: Name::new(alloc, name)?,
        change,
    })
}

// Events in order.
fn events_of(alloc: Global, written: &[(&str, &str)]) -> Result<Vec<RowEvent>, CallFault> {
    let mut events = Vec::new(alloc);
    for (before, after) in written {
        events.push(event_of(alloc, "t", before, after)?)?;
    }
    Ok(events)
}

// The rows, line by line.
fn rows_text(alloc: Global, table: &Table) -> Result<Text, CallFault> {
    let mut text = Text::new(alloc);
    for row in table.rows() {
        print_row(row.as_slice(), &mut text)?;
        text.push_str("\n")?;
    }
    Ok(text)
}

// What comes of a plan's table and events: its rows, or where the first unfit row is, its column and MySQL's error.
fn rebuilt<R: Threads + Sync>(
    rt: &R,
    alloc: Global,
    plan: &str,
    written: &[(&str, &str)],
    workers: u32,
) -> Result<Text, CallFault> {
    let Ok(plan) = read_accepted_plan(alloc, plan.as_bytes()) else {
        return Err(CallFault::Unread);
    };
    let Some(opening) = plan.tables().find(plan.table()) else {
        return Err(CallFault::Unread);
    };
    let events = events_of(alloc, written)?;
    if workers < 1 || workers > 16 {
        return Err(CallFault::Unread);
    }
    match rebuild(
        rt,
        alloc,
        opening,
        plan.altered(),
        events.as_slice(),
        workers,
        &OpenGate,
    ) {
        Ok(table) => rows_text(alloc, &table),
        Err(Fault::Memory) => Err(CallFault::Memory),
        Err(Fault::Refused(row)) => {
            let mut text = Text::new(alloc);
            text.push_str("unfit ")?;
            text.push_number(row.place as i128)?;
            text.push_str(" ")?;
            text.push_number(row.at.column as i128)?;
            text.push_str(" ")?;
            text.push_number(i128::from(row.at.unfit.number()))?;
            Ok(text)
        }
    }
}

// What comes of it, or that something written here can't be read.
fn answer<R: Threads + Sync>(
    rt: &R,
    alloc: Global,
    plan: &str,
    written: &[(&str, &str)],
    workers: u32,
) -> Result<Text, AllocError> {
    match rebuilt(rt, alloc, plan, written, workers) {
        Ok(text) => Ok(text),
        Err(CallFault::Memory) => Err(AllocError),
        Err(CallFault::Unread) => {
            let mut text = Text::new(alloc);
            text.push_str("unread")?;
            Ok(text)
        }
    }
}

// A table whose ALTER drops a column.
const SMALLER: &str =
    "version = 1\ntable = \"t\"\nalter = \"DROP COLUMN v\"\n[[tables]]\ncreate = \"CREATE TABLE t (id VARCHAR(3) NOT NULL, v SMALLINT, PRIMARY KEY (id))\"\nrows = [\"(3, '3')\", \"('c', 300)\", \"('f', 2)\", \"('e', 2)\", \"('d', 4)\"]\n";

// By any number of workers the rows are the same. The UPDATE changes the key.
#[test]
fn rows_are_those_of_the_table(rt: HostRuntime) -> Result<(), Fail> {
    let events = &[("'f', 2", "'2', 7"), ("'3', 3", ""), ("", "'1', 5")];
    for workers in [1, 2, 3, 16] {
        let rows = answer(&rt, rt.alloc(), SMALLER, events, workers)?;
        assert_eq!(rt; rows.as_str(), "('1')\n('2')\n('c')\n('d')\n('e')\n");
    }
    Ok(())
}

// A table with a clustered key of two columns.
const TWO_COLUMNS: &str =
    "version = 1\ntable = \"t\"\nalter = \"ADD COLUMN b INT\"\n[[tables]]\ncreate = \"CREATE TABLE t (a INT NOT NULL, c VARCHAR(4) NOT NULL, PRIMARY KEY (a, c))\"\nrows = [\"(7, 'a')\", \"(4, 'd')\", \"(6, 4)\", \"(3, 'g')\", \"(3, 'f')\", \"(4, 'a')\", \"(1, 'b')\", \"(5, 'g')\"]\n";

#[test]
fn rows_have_keys_of_two_columns(rt: HostRuntime) -> Result<(), Fail> {
    let events = &[("", "5, 'a'"), ("", "6, '7'"), ("4, 'd'", "")];
    let rows = answer(&rt, rt.alloc(), TWO_COLUMNS, events, 4)?;
    assert_eq!(rt;
        rows.as_str(),
        "(1, 'b', NULL)\n(3, 'f', NULL)\n(3, 'g', NULL)\n(4, 'a', NULL)\n(5, 'a', NULL)\n(5, 'g', NULL)\n(6, '4', NULL)\n(6, '7', NULL)\n(7, 'a', NULL)\n"
    );
    Ok(())
}

// A table of which two opening rows have no converted row.
const NARROWER: &str =
    "version = 1\ntable = \"t\"\nalter = \"MODIFY v TINYINT, ADD COLUMN b INT DEFAULT 7\"\n[[tables]]\ncreate = \"CREATE TABLE t (id INT PRIMARY KEY, v INT)\"\nrows = [\"(3, 7)\", \"(4, 300)\", \"(1, 1)\", \"(5, -129)\", \"(2, 1)\"]\n";

// The first of both is found, whichever shards have them.
#[test]
fn first_unfit_row_is_found(rt: HostRuntime) -> Result<(), Fail> {
    let events = &[
        ("", "21, -3"),
        ("4, 300", "4, 1"),
        ("5, -129", "5, 7"),
        ("", "20, 7"),
        ("", "22, 1"),
    ];
    for workers in [1, 3, 16] {
        let found = answer(&rt, rt.alloc(), NARROWER, events, workers)?;
        assert_eq!(rt; found.as_str(), "unfit 3 1 1264");
    }
    Ok(())
}

// A table whose opening row has a converted row.
const SHORTER: &str =
    "version = 1\ntable = \"t\"\nalter = \"MODIFY v VARBINARY(1), ADD COLUMN b INT DEFAULT 7\"\n[[tables]]\ncreate = \"CREATE TABLE t (id INT PRIMARY KEY, v VARBINARY(4))\"\nrows = [\"(1, x'05')\"]\n";

// The row after the second event is the third that is seen.
#[test]
fn unfit_row_after_an_event_is_found(rt: HostRuntime) -> Result<(), Fail> {
    let events = &[
        ("", "21, x'05'"),
        ("1, x'05'", "1, x'01 02'"),
        ("1, x'01 02'", "1, x'05'"),
        ("", "20, x'05'"),
    ];
    let found = answer(&rt, rt.alloc(), SHORTER, events, 4)?;
    assert_eq!(rt; found.as_str(), "unfit 2 1 1406");
    Ok(())
}

// A table whose one row is too long for its new column, and of which nothing is logged.
const TOO_LONG: &str =
    "version = 1\ntable = \"t\"\nalter = \"MODIFY c VARCHAR(3)\"\n[[tables]]\ncreate = \"CREATE TABLE t (id INT PRIMARY KEY, c VARCHAR(20))\"\nrows = [\"(1, 'abcd')\"]\n";

#[test]
fn unfit_opening_row_is_found(rt: HostRuntime) -> Result<(), Fail> {
    let found = answer(&rt, rt.alloc(), TOO_LONG, &[], 4)?;
    assert_eq!(rt; found.as_str(), "unfit 0 1 1406");
    Ok(())
}
