//! The format of cases: plain lines, of which some begin with four number signs and a blank.
//!
//! `#### case NAME | WORDS | STATUS` begins a case: its name, the words of the command line with one blank between them, and
//! the status that the call must end with. The lines after it are the plan, and the lines after `#### prints` are what must be
//! printed; each ends in a line feed. After `#### no line feed` the part has lost its last line feed; at `#### bytes 0d ff`
//! these bytes come; after `#### times 500` the next line comes 500 times. What comes before a file's first case is a remark.

use std::alloc::{AllocError, Global};

/// A case, as far as its lines were added.
#[derive(Drop)]
pub struct Case<'a> {
    /// The name, which is said where the case isn't as expected.
    pub name: &'a str,
    /// The words of the command line, with one blank between them.
    pub words: &'a str,
    /// The status that the call must end with, in digits.
    pub status: &'a str,
    /// The bytes of the source.
    pub plan: Vec<u8>,
    /// The bytes that must be printed.
    pub prints: Vec<u8>,
    /// Whether each line could be read.
    pub is_whole: bool,
    is_printing: bool,
    times: u64,
}

impl<'a> Case<'a> {
    /// The case that a head begins, with an empty plan.
    pub fn new(alloc: Global, head: &'a str) -> Case<'a> {
        let (name, rest) = head.split_once(" | ").unwrap_or((head, ""));
        let (words, status) = rest.split_once(" | ").unwrap_or((rest, ""));
        Case {
            name,
            words,
            status,
            plan: Vec::new(alloc),
            prints: Vec::new(alloc),
            is_whole: true,
            is_printing: false,
            times: 1,
        }
    }

    /// The part to which lines are added.
    fn push_bytes(&mut self, bytes: &[u8]) -> Result<(), AllocError> {
        if self.is_printing {
            self.prints.extend_from_slice(bytes)
        } else {
            self.plan.extend_from_slice(bytes)
        }
    }

    /// Adds a line of text as often as it is to come.
    fn add_text(&mut self, line: &str) -> Result<(), AllocError> {
        for _ in 0..self.times {
            self.push_bytes(line.as_bytes())?;
            self.push_bytes(b"\n")?;
        }
        self.times = 1;
        Ok(())
    }

    /// Takes away the last line feed of the part.
    fn drop_line_feed(&mut self) {
        let last = if self.is_printing {
            self.prints.pop()
        } else {
            self.plan.pop()
        };
        self.is_whole = self.is_whole && last == Some(b'\n');
    }

    /// Adds bytes that are written as two digits each.
    fn add_hex(&mut self, words: &str) -> Result<(), AllocError> {
        for word in words.split(' ') {
            match u8::from_str_radix(word, 16) {
                Ok(byte) => self.push_bytes(&[byte])?,
                Err(_) => self.is_whole = false,
            }
        }
        Ok(())
    }

    /// Does what a line that begins with four number signs says.
    fn add_sign(&mut self, sign: &str) -> Result<(), AllocError> {
        if sign == "prints" {
            self.is_printing = true;
        } else if sign == "no line feed" {
            self.drop_line_feed();
        } else if let Some(words) = sign.strip_prefix("bytes ") {
            self.add_hex(words)?;
        } else if let Some(Ok(times)) = sign.strip_prefix("times ").map(|word| word.parse()) {
            self.times = times;
        } else {
            self.is_whole = false;
        }
        Ok(())
    }

    /// Adds a line of the case's file.
    pub fn add(&mut self, line: &str) -> Result<(), AllocError> {
        match line.strip_prefix("#### ") {
            Some(sign) => self.add_sign(sign),
            None => self.add_text(line),
        }
    }
}
