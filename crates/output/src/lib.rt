#![tactic(auto)]

// The table of a text on standard output, for the programs. No contract can say what is written; which bytes it is given is proved in
// `printed`.
use streams::write_output;

// Prints the table of a text, with literals held.
// It returns nothing to rule out: tests/table.sh and the stored output of `table` and `vectors` stand in for a contract.
pub fn write_table(rt: &(impl Print + Eprint), text: &[u8], held: &[i32]) {
    let mut out = [0u8; rules::MAX_TABLE];
    let n = printed::print(text, held, &mut out);
    write_output(rt, &out[..n]);
}

// Prints the table of a text with nothing held.
pub fn write_plain(rt: &(impl Print + Eprint), text: &[u8]) {
    write_table(rt, text, &[]);
}
