#![tactic(auto)]

// The program that says why a switch is greyed out (docs/RULES.md, "The printed reason"): a literal as its argument, a text on standard
// input. One byte more than a text may have is kept, so that a longer one is refused with 2.
use arguments::{NoNumber, number_at};
use rules::Lit;
use streams::{complain, read_input, write_output};

fn write_answer(rt: &(impl Print + Eprint), text: &[u8], literal: Lit) {
    let mut out = [0u8; rules::MAX_WHY];
    let n = why_printed::print(text, literal, &mut out);
    write_output(rt, &out[..n]);
}

fn answer(rt: &(impl Input + Print + Eprint), literal: Lit) {
    let mut text = [0u8; rules::MAX_TEXT + 1];
    let Some(n) = read_input(rt, &mut text) else {
        return;
    };
    write_answer(rt, &text[..n], literal);
}

fn main(rt: HostRuntime) {
    match number_at(&rt, 1) {
        Ok(None) => complain(&rt, b"why", b"a literal is missing"),
        Err(NoNumber) => complain(&rt, b"why", b"the literal is no number"),
        Ok(Some(number)) => answer(&rt, Lit(number)),
    }
}
