// A witness to see (docs/RULES.md, "A witness to see"): for a free variable the first model of a run, and a model that differs on it.
#![tactic(auto)]

ghost use Rattle.std.specs.Prelude.{◌≡◌, length};
ghost use Rattle.rules.specs.Held.{list_with};
ghost use Rattle.rules.specs.Witness.{asked, few_literals, Witnesses};
ghost use Rattle.witness.specs.Answer.{AskedOver, Answered};

mod again;
mod answer;
mod literals;

// Whether a buffer for the literals of a model is too short, by their lengths.
// Rules out: buffers of just the size called short; a second one that lacks a literal called long enough.
fn few_literals(vars: u32, first: usize, witness: usize) -> bool
    ensures { result ≡ few_literals vars first witness }
{
    let n = vars as usize;
    first < n || witness < n
}

// What is answered for a list with the held literals behind it, which is made here.
// Rules out: the models of the formula alone; held literals over its first entries.
// Required of: witness, after 10, 1, 11, 12, 15 and 13.
fn with_held(
    entries: &[i32],
    held: &[i32],
    variable: u32,
    first: &mut [i32],
    witness: &mut [i32],
    limits: calls::next::Limits,
) -> rules::Report
    requires { AskedOver (list_with entries.now held.now) first.old witness.old limits }
    ensures { Answered (list_with entries.now held.now) limits (length first.old) variable first.old
        witness.old result first.new witness.new }
{
    let mut list = [0i32; rules::MAX_LIST];
    let n = held::put_list(entries, held, &mut list);
    answer::room_for_run(&list[..n], variable, first, witness, limits)
}

// A witness (docs/RULES.md, "A witness to see"): the run is made again, and the literals of its first model and of the variable's witness are
// put. Every list, held literals, both buffers, every limit and every variable are answered; what is refused writes nothing.
// Rules out: a flip for a variable that compare settled; the last model for that of the call.
pub fn witness(
    entries: &[i32],
    vars: u32,
    held: &[i32],
    budget: u32,
    chunk_limit: u32,
    variable: u32,
    first: &mut [i32],
    witness: &mut [i32],
) -> rules::Report
    ensures { Witnesses (asked entries.now vars held.now budget chunk_limit variable first.old witness.old)
        result first.new witness.new }
{
    let bad_limits = refusals::out_of_limits(vars, chunk_limit);
    let short = few_literals(vars, first.len(), witness.len());
    if let Err(refusal) = refusals::refuse(bad_limits, short, entries, vars, held) {
        return rules::Report {
            answer: rules::RunAnswer::Refused(refusal),
            calls: 0,
            tries: 0,
            forced: 0,
            free: 0,
        };
    }
    let n = vars as usize;
    with_held(
        entries,
        held,
        variable,
        &mut first[..n],
        &mut witness[..n],
        calls::next::Limits {
            budget: budget,
            chunk: chunk_limit,
        },
    )
}
