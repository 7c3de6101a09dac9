// What follows at once (docs/RULES.md, "What follows at once"): the closing of the formula and the held literals, from nothing set.
#![tactic(auto)]

ghost use Rattle.std.specs.Prelude.{◌≤◌, length};
ghost use Rattle.rules.specs.Numbers.{max_vars};
ghost use Rattle.rules.specs.Held.{list_with};
ghost use Rattle.rules.specs.Close.{close_given, Closes};
ghost use Rattle.setup.specs.Called.{SetupTaken};
ghost use Rattle.closing.specs.Ended.{Told, CloseDone};

use board::close::Closing;
use buffers::count::count_set;
use formula::starts::find_starts;
use rules::{CloseAnswer, CloseReport};
use search::whole::whole_close;

// What the end of a closing says; after a clash the values become zeros.
// Rules out: the values between as a closed set; variables counted after a clash.
// Required of: on_list, whose formula has at most 256 variables.
fn tell(end: Closing, values: &mut [u8]) -> CloseReport
    requires { length values.old ≤ max_vars }
    ensures { Told end values.old result values.new }
{
    match end {
        Closing::Clash(rounds) => {
            values.fill(0);
            CloseReport {
                answer: CloseAnswer::Clash,
                rounds: rounds,
                set: 0,
            }
        }
        Closing::Closed(rounds) => CloseReport {
            answer: CloseAnswer::Closed,
            rounds: rounds,
            set: count_set(values) as u32,
        },
    }
}

// The closing of a list that no rule refuses, with room for where its clauses start.
// Rules out: the closing of the formula without its last clause; rounds of another list.
// Required of: with_held, for the list that it has made.
fn on_list(entries: &[i32], values: &mut [u8]) -> CloseReport
    requires { SetupTaken (length values.old) entries.now }
    ensures { CloseDone entries.now (length values.old) result values.new }
{
    let mut starts = [0u16; rules::MAX_STARTS];
    let count = find_starts(entries, &mut starts);
    let end = whole_close(entries, &starts[..count + 1], values);
    tell(end, values)
}

// The same of a list with the held literals behind it, which is made here.
// Rules out: the closing of the formula alone; held literals over its first entries.
// Required of: close, after 10, 1, 11, 12, 15 and 13.
fn with_held(entries: &[i32], held: &[i32], values: &mut [u8]) -> CloseReport
    requires { SetupTaken (length values.old) (list_with entries.now held.now) }
    ensures { CloseDone (list_with entries.now held.now) (length values.old) result values.new }
{
    let mut list = [0i32; rules::MAX_LIST];
    let n = held::put_list(entries, held, &mut list);
    on_list(&list[..n], values)
}

// What follows from the formula and the held literals by closing alone, a byte a variable, and in how many rounds. Every list, held
// literals and buffer are answered; what is refused writes nothing.
// Rules out: a literal that a model has false; the last round not counted.
pub fn close(entries: &[i32], vars: u32, held: &[i32], values: &mut [u8]) -> CloseReport
    ensures { Closes (close_given entries.now vars held.now values.old) result values.new }
{
    let bad_limits = rules::MAX_VARS < vars;
    let short = values.len() < vars as usize;
    if let Err(refusal) = refusals::refuse(bad_limits, short, entries, vars, held) {
        return CloseReport {
            answer: CloseAnswer::Refused(refusal),
            rounds: 0,
            set: 0,
        };
    }
    with_held(entries, held, &mut values[..vars as usize])
}
