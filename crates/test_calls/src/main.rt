//! Runs calls of the lower crates and of the final server over the lines of the files of the folder `data`, and says of
//! which lines the answer is another.
#![tactic(auto)]

mod calls;
mod runs;

use std::io;

fn main(rt: HostRuntime) -> io::Result<()> {
    runs::run_files(&rt)
}
