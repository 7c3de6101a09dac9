// The calls of a run after the first (docs/RULES.md, "Run"): while candidates remain, a call on the formula, the literals forced so far,
// and that one of the chunk is false.
ghost use Rattle.std.specs.Prelude.{length};
ghost use Rattle.search.specs.Rooms.{BoardKept, SameRooms};
ghost use Rattle.calls.specs.Next.{ChunkOver, ChunkCalled, CallDue, CalledFrom};
ghost use Rattle.calls.specs.Records.{RunOver, RunEnds};

use crate::after::{Made, Tally, after_model, after_none, row_only};
use formula::view::View;
use rules::{Outcome, Report, RunAnswer};
use search::call::CallEnd;
use search::meter::Meter;
use search::room::Room;
use search::whole::{call_in, whole_call};
use std::ops::ControlFlow;
use steps::records::put_records;

// How many tries the run may take, and how many candidates a call.
#[derive(Clone, Copy)]
pub struct Limits {
    pub budget: u32,
    pub chunk: u32,
}

// A call from the forced values, with the constraint of a chunk as the clause after the last one.
// Rules out: a call on the formula alone; the constraint of the chunk before.
// Required of: witness::again::call_again, for a call that is made again.
pub fn chunk_call(
    entries: &[i32],
    starts: &[u16],
    first: &[u8],
    status: &[u8],
    values: &mut [u8],
    chunk: u32,
    meter: Meter,
) -> CallEnd
    requires { ChunkOver entries.now starts.now first.now status.now values.old chunk }
    ensures { ChunkCalled entries.now first.now status.now chunk meter result values.new }
{
    steps::chunk::fill_start(status, values);
    let mut literals = [0i32; rules::MAX_CHUNK as usize];
    let n = chunk as usize;
    steps::constraint::put_constraint(first, status, n, &mut literals);
    let total = starts.len() as u32;
    whole_call(entries, starts, &literals[..n], total, values, meter)
}

// The same over the board of the run, which is kept.
// Rules out: the constraint of the chunk before; a board that is made anew.
// Required of: next_call, by CallDue.
fn chunk_in<'a>(
    entries: &'a [i32],
    starts: &'a [u16],
    first: &[u8],
    status: &[u8],
    room: &mut Room,
    values: &mut [u8],
    chunk: u32,
    meter: Meter,
) -> CallEnd
    requires { ChunkOver entries.now starts.now first.now status.now values.old chunk
        × BoardKept (length values.old) entries.now room.old.lists.now room.old.holders.now room.old.marks.now
        room.old.board.values.now room.old.board.keys.now room.old.board.hot.now room.old.board.trail.now }
    ensures called { ChunkCalled entries.now first.now status.now chunk meter result values.new }
    ensures kept { BoardKept (length values.old) entries.now room.new.lists.now room.new.holders.now room.new.marks.now
        room.new.board.values.now room.new.board.keys.now room.new.board.hot.now room.new.board.trail.now }
    ensures same { SameRooms room.old room.new }
{
    steps::chunk::fill_start(status, values);
    let mut literals = [0i32; rules::MAX_CHUNK as usize];
    let n = chunk as usize;
    steps::constraint::put_constraint(first, status, n, &mut literals);
    let total = starts.len() as u32;
    let view = View {
        entries,
        vars: values.len(),
        starts,
        constraint: &literals[..n],
    };
    call_in(&view, room, total, values, meter)
}

// One call, and what it leaves: the run goes on from a tally, or it ends there and returns. A model is compared and flipped before the
// next call can write over it.
// Rules out: two calls at once; the flip kept in the model.
// Required of: run_calls, while candidates remain.
fn next_call(
    entries: &[i32],
    starts: &[u16],
    first: &[u8],
    status: &mut [u8],
    log: &mut [u32],
    room: &mut Room,
    values: &mut [u8],
    t: Tally,
    limits: Limits,
) -> ControlFlow<Report, Tally>
    requires { CallDue entries.now starts.now first.now status.old log.old values.old t limits
        × BoardKept (length status.old) entries.now room.old.lists.now room.old.holders.now room.old.marks.now
        room.old.board.values.now room.old.board.keys.now room.old.board.hot.now room.old.board.trail.now }
    ensures called { CalledFrom entries.now limits t first.now status.old log.old
        result status.new log.new values.new }
    ensures kept { BoardKept (length status.old) entries.now room.new.lists.now room.new.holders.now room.new.marks.now
        room.new.board.values.now room.new.board.keys.now room.new.board.hot.now room.new.board.trail.now }
    ensures same { SameRooms room.old room.new }
{
    let chunk = t.size.min(t.candidates);
    let meter = Meter {
        budget: limits.budget,
        spent: t.tries,
    };
    let end = chunk_in(entries, starts, first, status, room, values, chunk, meter);
    let after = end.meter;
    let made = Made {
        chunk,
        spent: after.spent,
    };
    let outcome = end.outcome;
    match outcome {
        Outcome::Model => ControlFlow::Continue(after_model(
            entries, starts, first, values, status, log, t, made,
        )),
        Outcome::NoModel => ControlFlow::Continue(after_none(
            first,
            status,
            log,
            t,
            made,
            limits.chunk,
        )),
        Outcome::Stopped => ControlFlow::Break(row_only(log, t, Outcome::Stopped, made)),
    }
}

// While candidates remain, one call after the other, each followed by the records of what it settled; then what the run returns. The
// values are the calls' to write: nothing is said of what the last one left there.
// Rules out: one call too few; going on after a stop.
// Required of: backbone::first::settle, behind the first model.
pub fn run_calls(
    entries: &[i32],
    starts: &[u16],
    first: &[u8],
    status: &mut [u8],
    calls: &mut [u32],
    ways: &mut [u8],
    log: &mut [u32],
    room: &mut Room,
    values: &mut [u8],
    t: Tally,
    limits: Limits,
) -> Report
    requires { RunOver entries.now starts.now first.now status.old calls.old ways.old log.old values.old t limits
        × BoardKept (length status.old) entries.now room.old.lists.now room.old.holders.now room.old.marks.now
        room.old.board.values.now room.old.board.keys.now room.old.board.hot.now room.old.board.trail.now }
    ensures run { RunEnds entries.now limits t first.now status.old calls.old ways.old
        log.old result status.new calls.new ways.new log.new }
    ensures kept { BoardKept (length status.old) entries.now room.new.lists.now room.new.holders.now room.new.marks.now
        room.new.board.values.now room.new.board.keys.now room.new.board.hot.now room.new.board.trail.now }
    ensures same { SameRooms room.old room.new }
{
    let mut tally = t;
    // Stays a `while`: how many candidates are left, the calls say.
    while 0 < tally.candidates {
        match next_call(
            entries, starts, first, status, log, room, values, tally, limits,
        ) {
            ControlFlow::Continue(next) => {
                tally = next;
                put_records(first, values, status, calls, ways, tally.calls);
            }
            ControlFlow::Break(report) => {
                return report;
            }
        }
    }
    Report {
        answer: RunAnswer::Settled,
        calls: tally.calls,
        tries: tally.tries,
        forced: tally.forced,
        free: tally.free,
    }
}
