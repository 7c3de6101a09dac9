#![tactic(auto)]

// The tables of many formulas: for each word that it is started with, the file of that name, the name and its table. What it must print
// is made by tests/vectors.sh with the rules written a second time.
ghost use Rattle.std.specs.Prelude.{◌≤◌, length};

use std::env::FillError;
use std::io::Read;
use std::rt::{Env, Files};
use std::{fs, io};

// Reads until the buffer is full, the input ends or a read fails, and answers how many bytes stand at the buffer's start.
fn read_full<R: Read>(input: &mut R, text: &mut [u8]) -> usize
    ensures { result ≤ length text.new }
{
    let mut count: usize = 0;
    // Stays a `while`, beside that of streams::read_input: how far the index goes is what a read gives, and a read that fails ends it here.
    while count < text.len() {
        let n = input.read(&mut text[count..]).unwrap_or(0);
        if n == 0 {
            break;
        }
        count += n;
    }
    count
}

// As much of a file as a text may have, and one byte more, so that a longer one is refused with 2. A file that is not read is an empty text.
fn read_file(rt: &impl Files, name: &[u8], text: &mut [u8]) -> usize
    ensures { result ≤ length text.new }
{
    let Ok(path) = str::from_utf8(name) else {
        return 0;
    };
    match fs::open(rt, path) {
        Ok(mut file) => read_full(&mut file, text),
        Err(_) => 0,
    }
}

fn show(rt: &(impl Files + Print + Eprint), name: &[u8], text: &mut [u8]) -> io::Result<()> {
    rt.write_all(name)?;
    rt.write_all(b"\n")?;
    let n = read_file(rt, name, text);
    output::write_plain(rt, &text[..n]);
    Ok(())
}

// The file that word i names, and whether there is such a word. One that is longer than the buffer names no file.
fn show_word(
    rt: &(impl Env + Files + Print + Eprint),
    i: usize,
    name: &mut [u8],
    text: &mut [u8],
) -> io::Result<bool> {
    match rt.arg(i, name) {
        Ok(n) => show(rt, &name[..n], text)?,
        Err(FillError::TooLong) => show(rt, &name[..0], text)?,
        Err(FillError::NotPresent) => return Ok(false),
    }
    Ok(true)
}

// All words but the first, which is the program's own name.
fn show_words(
    rt: &(impl Env + Files + Print + Eprint),
    name: &mut [u8],
    text: &mut [u8],
) -> io::Result<()> {
    for i in 1..usize::MAX {
        if !show_word(rt, i, name, text)? {
            break;
        }
    }
    Ok(())
}

fn main(rt: HostRuntime) -> io::Result<()> {
    let mut name = [0u8; 256];
    let mut text = [0u8; rules::MAX_TEXT + 1];
    show_words(&rt, &mut name, &mut text)
}
