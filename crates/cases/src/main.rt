// Runs cases from outside, matrices and then scenes, and prints what each came to. What it must print is in the file stdout beside this
// folder, written from the documents and not from a run; tests/scenes.py makes the scenes and their lines.
#![tactic(auto)]

mod console;
mod matrices;
mod scenes;

use std::io;

fn main(rt: HostRuntime) -> io::Result<()> {
    matrices::run_all(&rt)?;
    scenes::run_all(&rt)
}
