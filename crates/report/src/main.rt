// Reads a scene on standard input and prints its report. One byte more than a scene may have is read, so that a longer one
// is seen as such. Where the input cannot be read or the output not written, a line on standard error says so; where nothing was
// read, no report is printed.
#![tactic(auto)]

use input::read_full;
use scene::format::MOST_BYTES;
use std::env::{Env, FillError};
use std::io;

// Prints the report on a scene.
fn print_report<R: Print + Eprint>(rt: &R, scene: &[u8]) -> io::Result<()> {
    let mut buffer = [0u8; 131072];
    let count = report_text::report(scene, &mut buffer);
    if let Err(error) = Print::write_all(rt, &buffer[..count]) {
        eprintln!(rt; "report: standard output: {error}")?;
    }
    Ok(())
}

// Whether the program was given an argument.
fn has_argument<R: Env>(rt: &R) -> bool {
    let mut start = [0u8; 1];
    !matches!(rt.arg(1, &mut start), Err(FillError::NotPresent))
}

fn main(rt: HostRuntime) -> io::Result<()> {
    if has_argument(&rt) {
        return eprintln!(rt; "usage: report < SCENE");
    }
    let mut space = [0u8; MOST_BYTES + 1];
    match read_full(&mut rt.reader(), &mut space) {
        Ok(count) => print_report(&rt, &space[..count]),
        Err(error) => eprintln!(rt; "report: standard input: {error}"),
    }
}
