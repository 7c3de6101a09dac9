// The first call of a run (docs/RULES.md, "Run"), on the formula alone, and what follows from it.
ghost use Rattle.std.specs.Prelude.{◌≡◌, length};
ghost use Rattle.search.specs.Rooms.{BoardKept};
ghost use Rattle.rules.specs.Held.{list_with};
ghost use Rattle.formula.specs.Formula.{Formula};
ghost use Rattle.backbone.specs.First.{FirstCalled, started, FirstFound, CallsBegin, RunBegins, ListDone};
ghost use Rattle.backbone.specs.First.{HintsBegin, HintsDone, ListTaken};

use board::parts::Board;
use buffers::copy::copy_first;
use calls::after::{Made, Tally, after_model, row_only};
use calls::next::{Limits, run_calls};
use formula::starts::find_starts;
use formula::view::View;
use held::put_list;
use rules::{Outcome, Report};
use search::call::CallEnd;
use search::meter::Meter;
use search::room::{MAX_BLOCKS, MAX_CODES, MAX_PARTS, MAX_TRAIL, Room, begin_in};
use search::whole::{call_in, whole_call};
use steps::hint::put_hints;
use steps::records::put_records;

// The first call, from no value, on the formula alone.
// Rules out: a call from the values that were there; one that starts with a try spent.
// Required of: setup::on_list, for the list that it is given.
pub fn first_call(entries: &[i32], starts: &[u16], values: &mut [u8], budget: u32) -> CallEnd
    requires { Formula (length values.old) entries.now starts.now }
    ensures { FirstCalled entries.now (length values.old) budget result values.new }
{
    values.fill(0);
    let total = (starts.len() - 1) as u32;
    whole_call(
        entries,
        starts,
        &[],
        total,
        values,
        Meter { budget, spent: 0 },
    )
}

// The same over the board of the run, which is kept.
// Rules out: a call from the values that were there; a constraint.
// Required of: all_calls, behind the beginning.
fn first_in<'a>(
    entries: &'a [i32],
    starts: &'a [u16],
    room: &mut Room,
    values: &mut [u8],
    budget: u32,
) -> CallEnd
    requires { Formula (length values.old) entries.now starts.now
        × BoardKept (length values.old) entries.now room.old.lists.now room.old.holders.now room.old.marks.now
        room.old.board.values.now room.old.board.keys.now room.old.board.hot.now room.old.board.trail.now }
    ensures { FirstCalled entries.now (length values.old) budget result values.new
        × BoardKept (length values.old) entries.now room.new.lists.now room.new.holders.now room.new.marks.now
        room.new.board.values.now room.new.board.keys.now room.new.board.hot.now room.new.board.trail.now }
{
    values.fill(0);
    let total = (starts.len() - 1) as u32;
    let view = View {
        entries,
        vars: values.len(),
        starts,
        constraint: &[],
    };
    call_in(&view, room, total, values, Meter { budget, spent: 0 })
}

// Before the first call: every variable is a candidate, and nothing is counted.
fn started(vars: u32) -> Tally
    ensures { result ≡ started vars }
{
    Tally {
        size: 1,
        candidates: vars,
        calls: 0,
        tries: 0,
        free: 0,
        forced: 0,
    }
}

// A model: its literals are the candidates. It is kept as the first one, compared and flipped, and the other calls follow.
// Rules out: a report before the other calls; the last model for the first.
// Required of: all_calls, where the first call has found a model.
fn settle(
    entries: &[i32],
    starts: &[u16],
    values: &mut [u8],
    first: &mut [u8],
    status: &mut [u8],
    calls: &mut [u32],
    ways: &mut [u8],
    log: &mut [u32],
    room: &mut Room,
    spent: u32,
    limits: Limits,
) -> Report
    requires { FirstFound entries.now starts.now values.old first.old status.old calls.old ways.old log.old spent limits
        × BoardKept (length status.old) entries.now room.old.lists.now room.old.holders.now room.old.marks.now
        room.old.board.values.now room.old.board.keys.now room.old.board.hot.now room.old.board.trail.now }
    ensures { ListDone entries.now (length status.old) limits first.old
        result first.new status.new calls.new ways.new log.new }
{
    copy_first(values, first, values.len());
    let t = started(values.len() as u32);
    let made = Made { chunk: 0, spent };
    let next = after_model(entries, starts, first, values, status, log, t, made);
    put_records(first, values, status, calls, ways, next.calls);
    run_calls(
        entries, starts, first, status, calls, ways, log, room, values, next, limits,
    )
}

// All calls, over a board of the list: a first model is settled by the calls that follow; anything else is one row.
// Rules out: going on where there is no model; statuses marked before there is one.
// Required of: room_for_values, with all variables open and no row.
fn all_calls(
    entries: &[i32],
    starts: &[u16],
    values: &mut [u8],
    first: &mut [u8],
    status: &mut [u8],
    calls: &mut [u32],
    ways: &mut [u8],
    log: &mut [u32],
    room: &mut Room,
    limits: Limits,
) -> Report
    requires { CallsBegin entries.now starts.now values.old first.old status.old calls.old ways.old log.old limits
        × BoardKept (length status.old) entries.now room.old.lists.now room.old.holders.now room.old.marks.now
        room.old.board.values.now room.old.board.keys.now room.old.board.hot.now room.old.board.trail.now }
    ensures { ListDone entries.now (length status.old) limits first.old
        result first.new status.new calls.new ways.new log.new }
{
    let end = first_in(entries, starts, room, values, limits.budget);
    let meter = end.meter;
    let spent = meter.spent;
    let outcome = end.outcome;
    if let Outcome::Model = outcome {
        return settle(
            entries, starts, values, first, status, calls, ways, log, room, spent, limits,
        );
    }
    row_only(
        log,
        started(status.len() as u32),
        outcome,
        Made { chunk: 0, spent },
    )
}

// The run with room for the values of its calls and for its board, which is made once.
// Rules out: a first model that is not kept; a run over more variables than there are statuses.
// Required of: with_hints, with all variables open and no row.
fn room_for_values(
    entries: &[i32],
    starts: &[u16],
    first: &mut [u8],
    status: &mut [u8],
    calls: &mut [u32],
    ways: &mut [u8],
    log: &mut [u32],
    limits: Limits,
) -> Report
    requires { RunBegins entries.now starts.now first.old status.old calls.old ways.old log.old limits }
    ensures { ListDone entries.now (length status.old) limits first.old
        result first.new status.new calls.new ways.new log.new }
{
    let n = status.len();
    let mut values = [0u8; rules::MAX_VARS as usize];
    let mut lists = [0u16; MAX_PARTS];
    let mut holders = [0u16; rules::MAX_LIST];
    let mut marks = [0u8; MAX_CODES];
    let mut shown = [0u8; rules::MAX_VARS as usize];
    let mut keys = [0u32; rules::MAX_STARTS];
    let mut hot = [0u16; MAX_BLOCKS];
    let mut trail = [0u16; MAX_TRAIL];
    begin_in(
        entries,
        starts,
        &mut lists,
        &mut holders,
        &mut marks,
        &mut shown,
        &mut keys,
        &mut hot,
        &mut trail,
        n,
    );
    let board = Board {
        values: &mut shown[..n],
        keys: &mut keys[..starts.len()],
        hot: &mut hot,
        trail: &mut trail,
    };
    let mut room = Room {
        lists: &lists,
        holders: &holders,
        marks: &mut marks,
        board,
    };
    all_calls(
        entries,
        starts,
        &mut values[..n],
        first,
        status,
        calls,
        ways,
        log,
        &mut room,
        limits,
    )
}

// The run, and then the hints, which are judged in its first model.
// Rules out: hints judged in a later model; hints where there is no model.
// Required of: accepted_run, with all variables open, no row and no first model yet.
fn with_hints(
    entries: &[i32],
    starts: &[u16],
    first: &mut [u8],
    status: &mut [u8],
    calls: &mut [u32],
    ways: &mut [u8],
    hints: &mut [u32],
    log: &mut [u32],
    limits: Limits,
) -> Report
    requires { HintsBegin entries.now starts.now first.old status.old calls.old ways.old hints.old log.old limits }
    ensures { HintsDone entries.now (length status.old) limits
        result first.new status.new calls.new ways.new hints.new log.new }
{
    let report = room_for_values(entries, starts, first, status, calls, ways, log, limits);
    put_hints(entries, starts, first, hints);
    report
}

// The run of a list that no rule refuses: every variable open, no record, no row, and where the clauses start, once for all calls. The first
// model, if there is one, stands in `first` afterwards.
// Rules out: statuses of an older run; rows of one.
// Required of: held_run and witness::answer::after_run, for the list that they have made.
pub fn accepted_run(
    entries: &[i32],
    first: &mut [u8],
    status: &mut [u8],
    calls: &mut [u32],
    ways: &mut [u8],
    hints: &mut [u32],
    log: &mut [u32],
    limits: Limits,
) -> Report
    requires { ListTaken entries.now first.old status.old calls.old ways.old hints.old log.old limits }
    ensures { HintsDone entries.now (length status.old) limits
        result first.new status.new calls.new ways.new hints.new log.new }
{
    first.fill(0);
    status.fill(0);
    calls.fill(0);
    ways.fill(0);
    log.fill(0);
    let mut starts = [0u16; rules::MAX_STARTS];
    let count = find_starts(entries, &mut starts);
    with_hints(
        entries,
        &starts[..count + 1],
        first,
        status,
        calls,
        ways,
        hints,
        log,
        limits,
    )
}

// The run of a list with the held literals behind it: one list, which is made here, once a run.
// Rules out: held literals that flips do not see; the formula's clauses numbered behind them.
// Required of: run, after 10, 1, 11, 12, 15 and 13.
pub fn held_run(
    entries: &[i32],
    held: &[i32],
    first: &mut [u8],
    status: &mut [u8],
    calls: &mut [u32],
    ways: &mut [u8],
    hints: &mut [u32],
    log: &mut [u32],
    limits: Limits,
) -> Report
    requires { ListTaken (list_with entries.now held.now) first.old status.old calls.old ways.old hints.old log.old limits }
    ensures { HintsDone (list_with entries.now held.now) (length status.old) limits
        result first.new status.new calls.new ways.new hints.new log.new }
{
    let mut list = [0i32; rules::MAX_LIST];
    let n = put_list(entries, held, &mut list);
    accepted_run(&list[..n], first, status, calls, ways, hints, log, limits)
}
