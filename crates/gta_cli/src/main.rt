//! The program: the words of its command line, standard input, output and error, and its exit status.
//! What it does with them is `gta_main`, in src/top.rt.
#![tactic(auto)]

mod ending;
mod says;
mod status;
#[cfg(test)]
mod tests;
mod top;

use gta_port::{StdSink, StdSource};
use std::alloc::AllocError;
use std::env;
use std::io::ErrorKind;
use std::process::ExitCode;

/// The status where the system gave no words. `gta_main` never answers it.
const NO_WORDS: u8 = 6;

/// Why there are no words.
enum NoWords {
    /// The system gave none.
    NotGiven,
    /// There was no memory to keep them.
    Memory,
}

/// The words after the program's name.
fn words_of(rt: &HostRuntime) -> Result<Vec<String>, NoWords> {
    match env::args(rt) {
        Ok(args) => args
            .skip(1)
            .collect(rt.alloc())
            .map_err(|_: AllocError| NoWords::Memory),
        Err(error) => match error.kind() {
            ErrorKind::OutOfMemory => Err(NoWords::Memory),
            _ => Err(NoWords::NotGiven),
        },
    }
}

fn main(rt: HostRuntime) -> ExitCode {
    let mut err = StdSink::new(rt.stderr());
    let words = match words_of(&rt) {
        Ok(words) => words,
        Err(NoWords::NotGiven) => return ExitCode::from(NO_WORDS),
        Err(NoWords::Memory) => return ExitCode::from(says::out_of_memory(&mut err).number()),
    };
    let mut source = StdSource::new(rt.stdin());
    let mut out = StdSink::new(rt.stdout());
    let status = top::gta_main(
        &rt,
        rt.alloc(),
        words.as_slice(),
        &mut source,
        &mut out,
        &mut err,
    );
    ExitCode::from(status)
}
