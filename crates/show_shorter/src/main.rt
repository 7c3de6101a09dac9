#![tactic(auto)]

// The shorter program (docs/RULES.md, "The shorter file"): reads a text from standard input and prints its shorter file. One byte more than a text
// may have is kept, so that a longer one is refused with 2.
use streams::{read_input, write_output};

fn write_shorter(rt: &(impl Print + Eprint), text: &[u8]) {
    let mut out = [0u8; rules::MAX_TEXT];
    let n = shorter_printed::print(text, &mut out);
    write_output(rt, &out[..n]);
}

fn main(rt: HostRuntime) {
    let mut text = [0u8; rules::MAX_TEXT + 1];
    let Some(n) = read_input(&rt, &mut text) else {
        return;
    };
    write_shorter(&rt, &text[..n]);
}
