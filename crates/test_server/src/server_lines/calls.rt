//! Calls on a server, with semicolons between them. `CREATE TABLE ..` makes a table, and prints nothing. `1 BEGIN`, `2 INSERT
//! INTO t VALUES (1)` and the like are what the sessions 1 to 3 ask, whose waits are never polled, and so is `1 log 0 2 t`: the
//! first two events of the table at the position 0 or after it, printed after the position that follows them. `unread 0 t`
//! tells how many events there are, and `rows t` the table's committed rows. What may not come now is printed so. ` id 5` follows
//! an answer for which the number 5 was drawn.

use crate::server_lines::requests::{ask, create, names_of};
use crate::server_lines::results::{push_drawn, say_asked, say_number};
use base_values::{Name, Text, print_row};
use server_api::Serve;
use std::alloc::Global;
use test_lines::{CallFault, say, unsigned_of};

/// Says the committed rows of the table of this name.
fn say_table<V: Serve>(
    alloc: Global,
    server: &V,
    name: &str,
    output: &mut Text,
) -> Result<(), CallFault> {
    let Some(table) = server.tables().find(&Name::new(alloc, name)?) else {
        say(output, "missing")?;
        return Ok(());
    };
    say(output, "rows")?;
    for row in table.rows() {
        output.push_str(" ")?;
        print_row(row.as_slice(), output)?;
    }
    Ok(())
}

/// Says how many events are at a position or after it, as `0 t` asks.
fn say_unread<V: Serve>(
    alloc: Global,
    server: &V,
    input: &str,
    output: &mut Text,
) -> Result<(), CallFault> {
    let (position, tables) = input.split_once(' ').ok_or(CallFault::Unread)?;
    let tables = names_of(alloc, tables)?;
    let unread = server.unread(u64::from(unsigned_of(position)?), &tables);
    say_number(output, "", i128::from(unread))?;
    Ok(())
}

/// Says what a session is answered.
fn say_answer_to<V: Serve>(
    alloc: Global,
    server: &mut V,
    session: &str,
    text: &str,
    output: &mut Text,
) -> Result<(), CallFault> {
    let answer = ask(alloc, server, unsigned_of(session)?, text)?;
    say_asked(output, answer.as_ref())?;
    if answer.is_some() {
        push_drawn(output, server.last_drawn())?;
    }
    Ok(())
}

/// Takes one call.
fn take<V: Serve>(
    alloc: Global,
    server: &mut V,
    call: &str,
    output: &mut Text,
) -> Result<(), CallFault> {
    let (word, input) = call.split_once(' ').ok_or(CallFault::Unread)?;
    match word {
        "CREATE" => create(alloc, server, call),
        "rows" => say_table(alloc, server, input, output),
        "unread" => say_unread(alloc, server, input, output),
        _ => say_answer_to(alloc, server, word, input, output),
    }
}

/// What the calls say, on this server.
pub fn answers<V: Serve>(alloc: Global, server: &mut V, input: &str) -> Result<Text, CallFault> {
    let mut output = Text::new(alloc);
    for call in input.split("; ") {
        take(alloc, server, call, &mut output)?;
    }
    Ok(output)
}
