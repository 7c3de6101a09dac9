#![tactic(auto)]

// The program that shows two setups which differ on a free switch (docs/RULES.md, "The printed witness"): a variable as its argument, a
// text on standard input. One byte more than a text may have is kept, so that a longer one is refused with 2.
use arguments::{NoNumber, number_at};
use streams::{complain, read_input, write_output};

fn write_answer(rt: &(impl Print + Eprint), text: &[u8], variable: u32) {
    let mut out = [0u8; rules::MAX_WITNESS];
    let n = witness_printed::print(text, variable, &mut out);
    write_output(rt, &out[..n]);
}

fn answer(rt: &(impl Input + Print + Eprint), variable: u32) {
    let mut text = [0u8; rules::MAX_TEXT + 1];
    let Some(n) = read_input(rt, &mut text) else {
        return;
    };
    write_answer(rt, &text[..n], variable);
}

fn main(rt: HostRuntime) {
    match number_at(&rt, 1) {
        Ok(None) => complain(&rt, b"witness", b"a variable is missing"),
        Err(NoNumber) => complain(&rt, b"witness", b"the variable is no number"),
        // A number below 0 is no variable's, as 0 is none's.
        Ok(Some(number)) => answer(&rt, u32::try_from(number).unwrap_or(0)),
    }
}
