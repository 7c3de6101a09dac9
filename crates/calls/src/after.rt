// What a call leaves (docs/RULES.md, "Run"): statuses, counts and a row, for each of its three ends.
ghost use Rattle.std.specs.Prelude.{◌≡◌, ◌≤◌};
ghost use Rattle.rules.specs.Meaning.{clauses};
ghost use Rattle.calls.specs.After.{RowRoom, ModelReady, NoneReady, doubled, answer_of, ModelLeft, NoneLeft, RowLeft};

use rules::{Outcome, Report, RunAnswer};
use steps::compare::compare;
use steps::flip::flip;
use steps::row::{Row, put_row};

// How far a run has come, beside the statuses and the log: the chunk size that is next, the candidates that remain, calls begun, tries,
// and how many variables are free and forced.
#[derive(Clone, Copy)]
pub struct Tally {
    pub size: u32,
    pub candidates: u32,
    pub calls: u32,
    pub tries: u32,
    pub free: u32,
    pub forced: u32,
}

// A call that has ended: the chunk that it took, and the tries spent by then.
#[derive(Clone, Copy)]
pub struct Made {
    pub chunk: u32,
    pub spent: u32,
}

// After a model: compare, then flip, and the chunk size is back to 1. The model is read here, before the next call can write it.
// Rules out: a chunk with a model freed whole; a size that is not back to 1.
// Required of: next::next_call, by CallDue; backbone::first::settle, with every variable open.
pub fn after_model(
    entries: &[i32],
    starts: &[u16],
    first: &[u8],
    model: &mut [u8],
    status: &mut [u8],
    log: &mut [u32],
    t: Tally,
    made: Made,
) -> Tally
    requires { ModelReady entries.now starts.now first.now model.old status.old log.old t made }
    ensures { ModelLeft (clauses entries.now) first.now model.old status.old
        log.old t made result model.new status.new log.new }
{
    let by_compare = compare(first, model, status);
    let by_flip = flip(entries, starts, model, status);
    put_row(
        log,
        t.calls,
        t.tries,
        Row {
            outcome: Outcome::Model,
            chunk: made.chunk,
            by_compare,
            by_flip,
            spent: made.spent,
        },
    );
    Tally {
        size: 1,
        candidates: t.candidates - by_compare - by_flip,
        calls: t.calls + 1,
        tries: made.spent,
        free: t.free + by_compare + by_flip,
        forced: t.forced,
    }
}

// Twice a chunk size, up to the limit.
// Rules out: a size over the limit; a size that stays below it.
// Required of: after_none, which requires it too.
pub fn doubled(size: u32, limit: u32) -> u32
    requires { size ≤ 256 }
    ensures { result ≡ doubled size limit }
{
    (size + size).min(limit)
}

// After none: the whole chunk is forced, and the chunk size doubles, up to the limit.
// Rules out: a variable of the chunk left open; one forced to its other value.
// Required of: next::next_call, by CallDue.
pub fn after_none(
    first: &[u8],
    status: &mut [u8],
    log: &mut [u32],
    t: Tally,
    made: Made,
    limit: u32,
) -> Tally
    requires { NoneReady first.now status.old log.old t made }
    ensures { NoneLeft first.now status.old log.old t made limit result status.new log.new }
{
    steps::chunk::force_first(first, status, made.chunk);
    put_row(
        log,
        t.calls,
        t.tries,
        Row {
            outcome: Outcome::NoModel,
            chunk: made.chunk,
            by_compare: 0,
            by_flip: 0,
            spent: made.spent,
        },
    );
    Tally {
        size: doubled(t.size, limit),
        candidates: t.candidates - made.chunk,
        calls: t.calls + 1,
        tries: made.spent,
        free: t.free,
        forced: t.forced + made.chunk,
    }
}

// The answer of a run that a call ends: without a model in the first call, or stopped; and of the first call alone.
// Rules out: 20 for a stopped call; 0 without a model.
pub fn answer_of(outcome: Outcome) -> RunAnswer
    ensures { result ≡ answer_of outcome }
{
    match outcome {
        Outcome::Model => RunAnswer::Settled,
        Outcome::NoModel => RunAnswer::NoModel,
        Outcome::Stopped => RunAnswer::Stopped,
    }
}

// A call that drops nothing and ends the run: one row, the statuses stay, and this is what the run returns.
// Rules out: a stopped call's row that says none; a call not counted.
// Required of: next::next_call, by CallDue; backbone::first::all_calls, with no row yet.
pub fn row_only(log: &mut [u32], t: Tally, outcome: Outcome, made: Made) -> Report
    requires { RowRoom log.old t made }
    ensures { RowLeft log.old t outcome made result log.new }
{
    put_row(
        log,
        t.calls,
        t.tries,
        Row {
            outcome,
            chunk: made.chunk,
            by_compare: 0,
            by_flip: 0,
            spent: made.spent,
        },
    );
    let calls = t.calls + 1;
    Report {
        answer: answer_of(outcome),
        calls,
        tries: made.spent,
        forced: t.forced,
        free: t.free,
    }
}
