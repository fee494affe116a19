//! The form of a line.
//!
//! A line is `call | input | answer`, with ` | ` between the parts. In input and answer the text between two tildes stands
//! for another: `~0a 00~` for characters by their codes, `~3 times , c# INT~` for a text three times, with the number 0, 1
//! or 2 at the sign, and `~~` for nothing, so that a part may be empty or end in a blank.

use crate::reader::{CallFault, push_codes};
use base_values::Text;
use std::alloc::{AllocError, Global};

/// A call, what it is given, and what it must answer.
#[derive(Drop)]
pub struct Line<'a> {
    /// The call's name.
    pub call: &'a str,
    /// What it is given.
    pub input: Text,
    /// What it must answer.
    pub answer: Text,
}

impl<'a> Line<'a> {
    /// The line of a text, if it is one.
    pub fn new(alloc: Global, text: &'a str) -> Result<Option<Line<'a>>, AllocError> {
        let Some((call, rest)) = text.split_once(" | ") else {
            return Ok(None);
        };
        let Some((input, answer)) = rest.rsplit_once(" | ") else {
            return Ok(None);
        };
        match (expanded(alloc, input), expanded(alloc, answer)) {
            (Ok(input), Ok(answer)) => Ok(Some(Line {
                call,
                input,
                answer,
            })),
            (Err(CallFault::Memory), _) | (_, Err(CallFault::Memory)) => Err(AllocError),
            _ => Ok(None),
        }
    }
}

/// Adds a text `times` times, each with its number at the sign.
fn push_times(into: &mut Text, times: u32, piece: &str) -> Result<(), AllocError> {
    for number in 0..times {
        match piece.split_once('#') {
            Some((before, following)) => {
                into.push_str(before)?;
                into.push_number(i128::from(number))?;
                into.push_str(following)?;
            }
            None => into.push_str(piece)?,
        }
    }
    Ok(())
}

/// Adds what the text between two tildes stands for.
fn push_sign(into: &mut Text, sign: &str) -> Result<(), CallFault> {
    match sign.split_once(" times ") {
        Some((times, piece)) => {
            let times = times.parse::<u32>().map_err(|_| CallFault::Unread)?;
            push_times(into, times, piece)?;
            Ok(())
        }
        None => push_codes(into, sign),
    }
}

/// What a part of a line stands for.
fn expanded(alloc: Global, part: &str) -> Result<Text, CallFault> {
    let mut text = Text::new(alloc);
    let mut is_sign = false;
    for piece in part.split('~') {
        if is_sign {
            push_sign(&mut text, piece)?;
        } else {
            text.push_str(piece)?;
        }
        is_sign = !is_sign;
    }
    Ok(text)
}
