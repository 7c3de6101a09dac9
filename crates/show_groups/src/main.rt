#![tactic(auto)]

// The groups program (docs/RULES.md, "The printed groups"): reads a file of groups from standard input and prints its table. One byte more than a text
// may have is kept, so that a longer one is refused with 2.
use streams::{read_input, write_output};

fn write_table(rt: &(impl Print + Eprint), text: &[u8]) {
    let mut out = [0u8; rules::MAX_GROUPS_TABLE];
    let n = groups_printed::print(text, &mut out);
    write_output(rt, &out[..n]);
}

fn main(rt: HostRuntime) {
    let mut text = [0u8; rules::MAX_TEXT + 1];
    let Some(n) = read_input(&rt, &mut text) else {
        return;
    };
    write_table(&rt, &text[..n]);
}
