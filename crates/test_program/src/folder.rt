//! The files of a folder.

use std::rt::Files;
use std::{fs, io};

/// What the file of this name in the folder has.
pub fn text_in<R: Files + AllocGlobal>(rt: &R, folder: &str, name: &str) -> io::Result<String> {
    let path = format!(in rt.alloc(); "{folder}/{name}")?;
    fs::read_to_string(rt, path.as_str())
}

/// The names of the files that are run, one a line.
pub fn names_in<R: Files + AllocGlobal>(rt: &R, folder: &str) -> io::Result<String> {
    text_in(rt, folder, "files")
}
