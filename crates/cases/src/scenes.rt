// The reader on scenes from outside: for each the answer's number, place and count, the sum of the cells, of a scene with three regions
// its identifiers, cells and marks, how long the refused record's part is and its first bytes.
use crate::console::{print_bytes, print_first, print_sum};
use input::read_full;
use std::env::{Env, FillError};
use std::fs::{self, Files};
use std::io::{self, Read};

// The reading of a scene with areas of these lengths, and what it left.
fn print_reading<R: Print>(
    rt: &R,
    scene: &[u8],
    identifiers: &mut [u32],
    cells: &mut [u8],
    marks: &mut [u16],
) -> io::Result<()> {
    let told = scene::numbers::of_reading(scene::read(scene, identifiers, cells, marks));
    print!(rt;
        " {} {} {}, sum of the cells",
        told.number, told.first, told.count
    )?;
    print_sum(rt, cells)?;
    if told.count == 3 {
        print!(rt; ", identifiers")?;
        print_first(rt, identifiers, 4)?;
        print!(rt; ", cells")?;
        print_first(rt, cells, 10)?;
        print!(rt; ", marks")?;
        print_first(rt, marks, 10)?;
    }
    println!(rt; "")
}

fn print_scene<R: Print>(rt: &R, scene: &[u8]) -> io::Result<()> {
    let mut identifiers = [7u32; 64];
    let mut cells = [7u8; 4096];
    let mut marks = [7u16; 4096];
    print_reading(rt, scene, &mut identifiers, &mut cells, &mut marks)?;
    let part = scene::refused_record(scene);
    print!(rt; "  record {}:", part.len())?;
    print_bytes(rt, part)?;
    println!(rt; "")
}

// Areas of the wrong length.
fn print_short<R: Print>(rt: &R, scene: &[u8]) -> io::Result<()> {
    let mut identifiers = [7u32; 64];
    let mut cells = [7u8; 4096];
    let mut few_identifiers = [7u32; 63];
    let mut few_cells = [7u8; 4095];
    let mut marks = [7u16; 4096];
    let mut few_marks = [7u16; 4095];
    print!(rt; "63 identifiers:")?;
    print_reading(rt, scene, &mut few_identifiers, &mut cells, &mut marks)?;
    print!(rt; "4095 cells:")?;
    print_reading(rt, scene, &mut identifiers, &mut few_cells, &mut marks)?;
    print!(rt; "4095 marks:")?;
    print_reading(rt, scene, &mut identifiers, &mut cells, &mut few_marks)
}

// The scene in the file with this path; a file that cannot be opened is told on standard error.
fn one<R: Print + Eprint + Files>(rt: &R, path: &[u8]) -> io::Result<()> {
    Print::write_all(rt, path)?;
    print!(rt; ":")?;
    let Ok(name) = str::from_utf8(path) else {
        return eprintln!(rt; "cases: a path that is no text");
    };
    match fs::open(rt, name) {
        Ok(file) => print_file(rt, file),
        Err(error) => eprintln!(rt; "{name}: {error}"),
    }
}

// The scene in an open file.
fn print_file<R: Print, F: Read + Drop>(rt: &R, mut file: F) -> io::Result<()> {
    let mut scene = [0u8; 33000];
    let count = read_full(&mut file, &mut scene)?;
    print_scene(rt, &scene[..count])
}

// Areas of the wrong length, then the scene of each file that the arguments name; a path that is too long names none.
pub(crate) fn run_all<R: Print + Eprint + Env + Files>(rt: &R) -> io::Result<()> {
    print_short(rt, b"\x03")?;
    let mut path = [0u8; 4096];
    // The library's `env::args` needs an allocator, and fails as a whole where one argument is no text.
    for i in 1..usize::MAX {
        match rt.arg(i, &mut path) {
            Ok(length) => one(rt, &path[..length])?,
            Err(FillError::TooLong) => one(rt, &path[..0])?,
            Err(FillError::NotPresent) => break,
        }
    }
    Ok(())
}
