//! Files of cases.

use crate::asked::{Asked, is_as_expected};
use std::alloc::AllocError;
use std::io;
use std::rt::Files;
use test_program::{Case, Program, names_in, text_in};

/// How many cases a file has, and how many of them are as expected.
#[derive(Clone, Copy)]
struct Count {
    cases: u64,
    expected: u64,
}

/// Runs a case, and says so where it isn't as expected.
fn run_case<R: Print + AllocGlobal>(
    rt: &R,
    program: &Program,
    asked: Asked,
    count: &mut Count,
    case: &Case<'_>,
) -> io::Result<()> {
    count.cases = count.cases.saturating_add(1);
    if is_as_expected(rt.alloc(), program, asked, case)? {
        count.expected = count.expected.saturating_add(1);
        Ok(())
    } else {
        println!(rt; "{} is not as expected", case.name)
    }
}

/// Runs a case, where there is one.
fn run_last<R: Print + AllocGlobal>(
    rt: &R,
    program: &Program,
    asked: Asked,
    count: &mut Count,
    case: &Option<Case<'_>>,
) -> io::Result<()> {
    match case {
        Some(case) => run_case(rt, program, asked, count, case),
        None => Ok(()),
    }
}

/// Adds a line to a case, where there is one.
fn add_line(case: &mut Option<Case<'_>>, line: &str) -> Result<(), AllocError> {
    match case {
        Some(case) => case.add(line),
        None => Ok(()),
    }
}

/// Runs the cases of a text, and counts them.
fn run_cases<R: Print + AllocGlobal>(
    rt: &R,
    program: &Program,
    asked: Asked,
    text: &str,
) -> io::Result<Count> {
    let mut count = Count {
        cases: 0,
        expected: 0,
    };
    let mut case: Option<Case<'_>> = None;
    for line in text.lines() {
        match line.strip_prefix("#### case ") {
            Some(head) => {
                run_last(rt, program, asked, &mut count, &case)?;
                case = Some(Case::new(rt.alloc(), head));
            }
            None => add_line(&mut case, line)?,
        }
    }
    run_last(rt, program, asked, &mut count, &case)?;
    Ok(count)
}

/// Runs the cases of a file, and prints each that isn't as it says.
fn run_case_file<R: Print + AllocGlobal + Files>(
    rt: &R,
    program: &Program,
    folder: &str,
    name: &str,
    asked: Asked,
) -> io::Result<()> {
    let text = text_in(rt, folder, name)?;
    let count = run_cases(rt, program, asked, text.as_str())?;
    println!(rt;
        "{name}: {} of {} cases are as expected",
        count.expected, count.cases
    )
}

/// Runs the files of cases of this folder.
pub fn run_case_files<R: Print + AllocGlobal + Files>(
    rt: &R,
    program: &Program,
    folder: &str,
    asked: Asked,
) -> io::Result<()> {
    let names = names_in(rt, folder)?;
    for name in names.lines() {
        run_case_file(rt, program, folder, name, asked)?;
    }
    Ok(())
}
