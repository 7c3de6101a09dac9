#![tactic(auto)]

// The deepest search: 256 variables and no clause, so that a try is made for each, one below the other. It prints what the call ends
// with, as in the log (1 model, 2 none, 3 stopped), and the tries. tests/stack.sh runs it on a stack of 512 KB.
use formula::starts::find_starts;
use search::meter::Meter;
use search::whole::whole_call;
use std::io;

fn main(rt: HostRuntime) -> io::Result<()> {
    let list = [0i32; 1];
    let none = &list[..0];
    let mut starts = [0u16; 1];
    find_starts(none, &mut starts);
    let mut values = [0u8; rules::MAX_VARS as usize];
    let meter = Meter {
        budget: 1000,
        spent: 0,
    };
    let end = whole_call(none, &starts, none, 0, &mut values, meter);
    let outcome = end.outcome;
    let number = u32::from(outcome);
    let tries = end.meter.spent;
    println!(rt; "outcome {number} tries {tries}")
}
