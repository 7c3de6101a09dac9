// One valid setup (docs/RULES.md, "One valid setup"): the first call of a run alone, on the formula and the held literals.
#![tactic(auto)]

ghost use Rattle.std.specs.Prelude.{◌≡◌, length};
ghost use Rattle.rules.specs.Held.{list_with};
ghost use Rattle.rules.specs.Setup.{setup_given, SetsUp};
ghost use Rattle.setup.specs.Called.{bits_if, Told, SetupTaken, SetupDone};

use backbone::first::first_call;
use buffers::bits::write_bits;
use formula::starts::find_starts;
use rules::{Outcome, Report, RunAnswer};
use search::call::CallEnd;

// A model's values become bits; where there is no model they are zeros and stay.
// Rules out: bits where there is no model; a model's bytes as they were.
fn bits_if(values: &mut [u8], outcome: Outcome)
    ensures { values.new ≡ bits_if outcome values.old }
{
    match outcome {
        Outcome::Model => write_bits(values),
        Outcome::NoModel => (),
        Outcome::Stopped => (),
    }
}

// What the end of the call says, with a model's values as bits.
// Rules out: the bytes of the search for bits; 20 for a stopped call.
fn tell(end: CallEnd, values: &mut [u8]) -> Report
    ensures { Told end values.old result values.new }
{
    let meter = end.meter;
    let tries = meter.spent;
    let outcome = end.outcome;
    bits_if(values, outcome);
    Report {
        answer: calls::after::answer_of(outcome),
        calls: 1,
        tries: tries,
        forced: 0,
        free: 0,
    }
}

// The first call on a list that no rule refuses, with room for where its clauses start.
// Rules out: a call on the formula without its last clause; values of an older call.
// Required of: with_held, for the list that it has made.
fn on_list(entries: &[i32], values: &mut [u8], budget: u32) -> Report
    requires { SetupTaken (length values.old) entries.now }
    ensures { SetupDone entries.now (length values.old) budget result values.new }
{
    let mut starts = [0u16; rules::MAX_STARTS];
    let count = find_starts(entries, &mut starts);
    let end = first_call(entries, &starts[..count + 1], values, budget);
    tell(end, values)
}

// The same on a list with the held literals behind it, which is made here.
// Rules out: a call on the formula alone; held literals over its first entries.
// Required of: setup, after 10, 1, 11, 12, 15 and 13.
fn with_held(entries: &[i32], held: &[i32], values: &mut [u8], budget: u32) -> Report
    requires { SetupTaken (length values.old) (list_with entries.now held.now) }
    ensures { SetupDone (list_with entries.now held.now) (length values.old) budget result values.new }
{
    let mut list = [0i32; rules::MAX_LIST];
    let n = held::put_list(entries, held, &mut list);
    on_list(&list[..n], values, budget)
}

// One valid setup: the first model of the formula in which every held literal is true, a byte a variable. Every list, held literals and
// buffer are answered; what is refused writes nothing.
// Rules out: a model without a held literal; a later model for the first.
pub fn setup(entries: &[i32], vars: u32, held: &[i32], budget: u32, values: &mut [u8]) -> Report
    ensures { SetsUp (setup_given entries.now vars held.now budget values.old) result values.new }
{
    let bad_limits = rules::MAX_VARS < vars;
    let short = values.len() < vars as usize;
    if let Err(refusal) = refusals::refuse(bad_limits, short, entries, vars, held) {
        return Report {
            answer: RunAnswer::Refused(refusal),
            calls: 0,
            tries: 0,
            forced: 0,
            free: 0,
        };
    }
    with_held(entries, held, &mut values[..vars as usize], budget)
}
