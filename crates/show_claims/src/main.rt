#![tactic(auto)]

// The program that checks what another tool claims (docs/RULES.md, "The printed verdict"): on standard input a text and, right behind it, the file of
// claims; its argument is how many bytes the text has. One byte more than each may have is kept, so that a longer one is refused with 2.
use arguments::{NoNumber, number_at};
use streams::{complain, read_input, write_output};

fn write_answer(rt: &(impl Print + Eprint), text: &[u8], claims: &[u8]) {
    let mut out = [0u8; rules::MAX_CLAIMS_LINE];
    let n = claims_printed::print(text, claims, &mut out);
    write_output(rt, &out[..n]);
}

// The first `length` bytes are the text.
fn split(rt: &(impl Print + Eprint), both: &[u8], length: usize) {
    if both.len() < length {
        complain(rt, b"claims", b"the text is shorter than is said");
        return;
    }
    write_answer(rt, &both[..length], &both[length..]);
}

fn answer(rt: &(impl Input + Print + Eprint), length: u32) {
    let mut both = [0u8; 2 * (rules::MAX_TEXT + 1)];
    let Some(n) = read_input(rt, &mut both) else {
        return;
    };
    split(rt, &both[..n], length as usize);
}

fn main(rt: HostRuntime) {
    match number_at(&rt, 1) {
        Ok(None) => complain(&rt, b"claims", b"the length of the text is missing"),
        Err(NoNumber) => complain(&rt, b"claims", b"the length of the text is no number"),
        // A number below 0 is no length, as no text is that short.
        Ok(Some(number)) => answer(&rt, u32::try_from(number).unwrap_or(0)),
    }
}
