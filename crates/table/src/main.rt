#![tactic(auto)]

// The table program (docs/RULES.md, "The printed table"): reads a text from standard input and prints its table, with the literals held that it is
// started with. One byte more than a text may have is kept, and one literal more than may be held, so that more is refused with 2 and with 15.
ghost use Rattle.std.specs.Prelude.{◌≤◌, length};
ghost use Rattle.table.specs.Words.{Kept};

use arguments::{NoNumber, number_at};
use std::rt::Env;
use streams::{complain, read_input};

// Stores a number behind n others if there is room, and answers how many are stored then.
fn store(held: &mut [i32], n: usize, number: i32) -> usize
    requires { n ≤ length held.old }
    ensures { result ≤ length held.new }
{
    if n < held.len() {
        held[n] = number;
        return n + 1;
    }
    n
}

// All words but the first, which is the program's own name: numbers, of which as many are stored as there is room for.
fn read_held(rt: &impl Env, held: &mut [i32]) -> Result<usize, NoNumber>
    ensures { Kept result (length held.new) }
{
    let mut n: usize = 0;
    for i in 1..usize::MAX {
        let Some(number) = number_at(rt, i)? else {
            break;
        };
        n = store(held, n, number);
    }
    Ok(n)
}

fn show(rt: &(impl Input + Print + Eprint), held: &[i32]) {
    let mut text = [0u8; rules::MAX_TEXT + 1];
    let Some(n) = read_input(rt, &mut text) else {
        return;
    };
    output::write_table(rt, &text[..n], held);
}

fn main(rt: HostRuntime) {
    let mut held = [0i32; rules::MAX_HELD + 1];
    match read_held(&rt, &mut held) {
        Ok(n) => show(&rt, &held[..n]),
        Err(NoNumber) => complain(&rt, b"table", b"a held literal is no number"),
    }
}
