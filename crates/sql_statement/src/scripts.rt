//! Scripts as texts.

ghost use Rattle.std.specs.Prelude.{◌≡◌, ◌++◌, IfOk, OnOk, false, map};
ghost use Rattle.std.specs.List.{list_any};
ghost use Rattle.std.specs.Str.{bytes_eq};
ghost use Rattle.std.specs.Str.Lines.{lines};
ghost use Rattle.base_values.specs.Faults.{Answers};
ghost use Rattle.sql_statement.specs.Scripts.{table_of, names_one_of, closed, open_after, ended_before, unless_tool, fitting, fitting_line, at_line, numbered, lines_from, script_of};

use crate::code::{LineFault, ScriptCode, ScriptFault, ScriptRefusal};
use crate::lines::{has_lines, line_at};
use base_script::{Script, ScriptLine, ScriptWord, Statement};
use base_values::{Name, Sequence, because};
use std::alloc::{AllocError, Global};

fn table_of(statement: &Statement) -> &Name
    ensures { result.now ≡ table_of statement.now }
{
    match statement {
        Statement::Insert { table, .. } => table,
        Statement::Replace { table, .. } => table,
        Statement::Delete { table, .. } => table,
        Statement::Update { table, .. } => table,
        Statement::Select { table, .. } => table,
    }
}

fn is_one_of(tables: &[Name], named: &Name) -> bool
    ensures { result ≡ list_any (λ table. bytes_eq table named.now) tables.now }
{
    for table in tables {
        if table.as_str() == named.as_str() {
            return true;
        }
    }
    false
}

/// Whether the line names one of these tables.
fn names_one_of(tables: &[Name], asked: &ScriptWord) -> bool
    ensures { result ≡ names_one_of tables.now asked.now }
{
    match asked {
        ScriptWord::Do(statement) => is_one_of(tables, table_of(statement)),
        ScriptWord::Begin => false,
        ScriptWord::Commit => false,
        ScriptWord::Rollback => false,
    }
}

fn closed(is_open: bool) -> Result<bool, LineFault>
    ensures { Answers (λ is_open. is_open) result (closed is_open) }
{
    if is_open {
        Ok(false)
    } else {
        Err(LineFault::Refused(ScriptCode::EndOutside))
    }
}

/// Whether a transaction is open after a line, given whether one is before it.
fn open_after(is_open: bool, asked: &ScriptWord) -> Result<bool, LineFault>
    ensures { Answers (λ is_open. is_open) result (open_after is_open asked.now) }
{
    match asked {
        ScriptWord::Begin => {
            if is_open {
                Err(LineFault::Refused(ScriptCode::BeginInside))
            } else {
                Ok(true)
            }
        }
        ScriptWord::Commit => closed(is_open),
        ScriptWord::Rollback => closed(is_open),
        ScriptWord::Do(_) => Ok(is_open),
    }
}

/// The last line leaves no transaction open.
fn ended_before(alloc: Global, texts: &[&str], is_open: bool) -> Result<bool, LineFault>
    ensures { Answers (λ is_open. is_open) result (ended_before (map (λ text. text.now) texts.now) is_open) }
{
    if is_open && !has_lines(alloc, texts)? {
        return Err(LineFault::Refused(ScriptCode::LeftOpen));
    }
    Ok(is_open)
}

fn unless_tool(tools: &[Name], is_open: bool, asked: &ScriptWord) -> Result<bool, LineFault>
    ensures { Answers (λ is_open. is_open) result (unless_tool tools.now is_open asked.now) }
{
    if names_one_of(tools, asked) {
        Err(LineFault::Refused(ScriptCode::ToolTable))
    } else {
        Ok(is_open)
    }
}

/// Whether a transaction is open after a line, where it fits into its script.
#[tactic(auto, unfolding(crate::specs::Scripts::fitting))]
fn fitting(
    alloc: Global,
    tools: &[Name],
    texts: &[&str],
    is_open: bool,
    asked: &Option<ScriptWord>,
) -> Result<bool, LineFault>
    ensures { Answers (λ is_open. is_open) result (fitting tools.now (map (λ text. text.now) texts.now) is_open asked.now) }
{
    match asked {
        None => Ok(is_open),
        Some(asked) => {
            // In the order of the codes: the line's place in a transaction, a transaction left open, a table of the tool's.
            let is_open = open_after(is_open, asked)?;
            let is_open = ended_before(alloc, texts, is_open)?;
            unless_tool(tools, is_open, asked)
        }
    }
}

/// What a line asks for, where it fits, and whether a transaction is open after it.
#[tactic(auto, unfolding(crate::specs::Scripts::fitting_line))]
fn fitting_line(
    alloc: Global,
    tools: &[Name],
    texts: &[&str],
    is_open: bool,
    text: &str,
) -> Result<(Option<ScriptWord>, bool), LineFault>
    ensures { Answers (λ line. line) result (fitting_line tools.now (map (λ text. text.now) texts.now) is_open text.now) }
{
    let asked = line_at(alloc, text)?;
    let is_open = fitting(alloc, tools, texts, is_open, &asked)?;
    Ok((asked, is_open))
}

/// The same, where a refusal has the line's number.
fn numbered_line(
    alloc: Global,
    tools: &[Name],
    texts: &[&str],
    is_open: bool,
    number: u32,
    text: &str,
) -> Result<(Option<ScriptWord>, bool), ScriptFault>
    ensures { Answers (λ line. line) result (at_line number (fitting_line tools.now (map (λ text. text.now) texts.now) is_open text.now)) }
{
    let line = fitting_line(alloc, tools, texts, is_open, text);
    because(line, |code| ScriptRefusal { code, line: number })
}

fn push_line(script: &mut Script, number: u32, asked: Option<ScriptWord>) -> Result<(), AllocError>
    ensures { OnOk result (script.new ≡ script.old ++ numbered number asked) }
{
    match asked {
        Some(word) => script.push(ScriptLine { line: number, word }),
        None => Ok(()),
    }
}

fn lines_from(alloc: Global, tools: &[Name], texts: &[&str]) -> Result<Script, ScriptFault>
    ensures { Answers (λ script. script) result (lines_from tools.now false 1 (map (λ text. text.now) texts.now)) }
{
    let mut script = Sequence::new(alloc);
    let mut is_open = false;
    let mut number: u32 = 1;
    for (i, text) in texts.iter().enumerate() {
        let (asked, still_open) = numbered_line(
            alloc,
            tools,
            &texts[i + 1..],
            is_open,
            number,
            text,
        )?;
        push_line(&mut script, number, asked)?;
        is_open = still_open;
        number = number.saturating_add(1);
    }
    Ok(script)
}

fn lines_of(alloc: Global, text: &str) -> Result<Vec<&str>, AllocError>
    ensures { IfOk result (λ v. map (λ line. line.now) v.items ≡ lines text.now) }
{
    text.lines().collect(alloc)
}

/// Reads a client's script, where these are the tool's tables, which no client may name. Each line of the text asks for
/// one thing; one without words asks for nothing, and is counted.
pub fn read_script(alloc: Global, text: &str, tools: &[Name]) -> Result<Script, ScriptFault>
    ensures { Answers (λ script. script) result (script_of tools.now text.now) }
{
    let lines = lines_of(alloc, text)?;
    lines_from(alloc, tools, lines.as_slice())
}
