// The model of a call (docs/RULES.md, "A witness to see"): a run leaves its first model alone, so that a later call is made again, from
// what its records and its log say.
ghost use Rattle.std.specs.Prelude.{◌≡◌, length, ltb};
ghost use Rattle.rules.specs.Witness.{status_if_before};
ghost use Rattle.witness.specs.Again.{kept_before, tries_in, TriesOver, AgainOver, CalledAgain, CallKnown, ModelLeft};

use buffers::copy::copy_first;
use calls::next::{Limits, chunk_call};
use formula::starts::find_starts;
use search::meter::Meter;

// The status of a variable before a call: 0 if that call or a later one settled it.
fn status_before(status: u8, settled: u32, call: u32) -> u8
    ensures { result ≡ status_if_before (ltb settled call) status }
{
    if settled < call { status } else { 0 }
}

// Leaves the statuses before a call.
// Rules out: what the call itself settled; open statuses for all variables.
// Required of: model_of_call, over buffers of one length.
fn keep_before(status: &mut [u8], calls: &[u32], call: u32)
    requires { length calls.now ≡ length status.old }
    ensures { status.new ≡ kept_before call status.old calls.now }
{
    for (i, now) in status.iter_mut().enumerate() {
        *now = status_before(*now, calls[i], call);
    }
}

// The tries of so many calls, by their rows.
// Rules out: the tries of the call behind them; another column.
// Required of: model_of_call, for the rows before that of a call.
fn tries_of(log: &[u32], rows: u32) -> u32
    requires { TriesOver log.now rows }
    ensures { result ≡ tries_in log.now rows }
{
    let mut sum: u32 = 0;
    for i in 0..rows {
        sum += log[6 * i as usize + 5];
    }
    sum
}

// A chunk's call, which leaves its model in the values: where the clauses start is found again.
// Rules out: the call of another chunk; a call with a full budget.
// Required of: model_of_call, by what the rules say of the call.
fn call_again(
    entries: &[i32],
    first: &[u8],
    status: &[u8],
    values: &mut [u8],
    chunk: u32,
    meter: Meter,
)
    requires { AgainOver entries.now first.now status.now values.old chunk }
    ensures { CalledAgain entries.now first.now status.now chunk meter values.new }
{
    let mut starts = [0u16; rules::MAX_STARTS];
    let count = find_starts(entries, &mut starts);
    chunk_call(
        entries,
        &starts[..count + 1],
        first,
        status,
        values,
        chunk,
        meter,
    );
}

// The model of a call that settled a free variable: that of call 1 is the first one, and another call is made again, from the statuses
// before it, with its chunk and the tries of the calls before it. The statuses are not needed any more.
// Rules out: the first model for a later call; the model of the next call.
// Required of: answer::put_models, for the call of a free variable.
pub fn model_of_call(
    entries: &[i32],
    first: &[u8],
    status: &mut [u8],
    calls: &[u32],
    log: &[u32],
    values: &mut [u8],
    call: u32,
    limits: Limits,
)
    requires { CallKnown entries.now limits first.now status.old calls.now log.now values.old call }
    ensures { ModelLeft entries.now limits (length status.old) call values.new }
{
    if call < 2 {
        copy_first(first, values, values.len());
        return;
    }
    keep_before(status, calls, call);
    let chunk = log[6 * (call - 1) as usize + 2];
    let meter = Meter {
        budget: limits.budget,
        spent: tries_of(log, call - 1),
    };
    call_again(entries, first, status, values, chunk, meter);
}
