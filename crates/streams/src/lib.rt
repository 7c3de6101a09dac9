#![tactic(auto)]

// Standard input as a program reads it, and what it writes. No contract can say what is read or written; how many bytes are counted is proved.
// A read or a write that fails is told on standard error: a program has no exit status of its own to give.
ghost use Rattle.std.specs.Prelude.{unwrap_or};
ghost use Rattle.io.specs.Counts.{IsPrefixLen};

use std::io::Read;
use std::{fmt, io};

// Reads standard input until the buffer is full or the input ends, and answers how many bytes stand at the buffer's start. A read that
// fails is told, and is not the end: then the answer is None.
pub fn read_input(rt: &(impl io::Input + Eprint), text: &mut [u8]) -> Option<usize>
    ensures { IsPrefixLen (unwrap_or result 0) text.new }
{
    let mut input = rt.reader();
    let mut count: usize = 0;
    // Stays a `while`: how far the index goes is what a read gives.
    while count < text.len() {
        let Ok(n) = Read::read(&mut input, &mut text[count..]) else {
            complain(rt, b"standard input", b"reading failed");
            return None;
        };
        if n == 0 {
            break;
        }
        count += n;
    }
    Some(count)
}

// Writes to standard output. A write that fails is told.
pub fn write_output(rt: &(impl Print + Eprint), out: &[u8]) {
    if Print::write_all(rt, out).is_err() {
        complain(rt, b"standard output", b"writing failed");
    }
}

// Says on standard error what is wrong, and of what. A message that cannot be written is lost.
pub fn complain(rt: &impl Eprint, of: &[u8], what: &[u8]) {
    let of = Shown(of);
    let what = Shown(what);
    let _ = rt.eprintln(format_args!("{of}: {what}"));
}

// Bytes of a message, which are text: where they are not, a replacement character stands.
#[derive(Drop)]
struct Shown<'a>(&'a [u8]);

impl fmt::Display for Shown<'_> {
    fn fmt<W: fmt::Write>(&self, f: &mut fmt::Formatter<W>) -> fmt::Result {
        for chunk in self.0.utf8_chunks() {
            f.write_str(chunk.valid())?;
            if !chunk.invalid().is_empty() {
                f.write_str("\u{fffd}")?;
            }
        }
        Ok(())
    }
}
