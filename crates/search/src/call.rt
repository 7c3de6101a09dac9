// A call, docs/RULES.md, "Search": going on chooses a variable and calls try, trying sets it and calls go_on. The
// number of unset variables falls. Nothing is saved: what was set since stands on the trail, and is taken back unless there is a model.
// The two values of a variable are tried by one call of try in a loop, so that a level takes one frame of the stack.
ghost use Rattle.std.specs.Prelude.{◌≡◌};
ghost use Rattle.board.specs.Boards.{SameRoom};
ghost use Rattle.board.specs.Trails.{UndoAsked};
ghost use Rattle.search.specs.Boards.{TakenBack, goes_again, GoOver, WentOn, TryBegins, Tried};

use crate::meter::Meter;
use crate::values::lowest_on;
use board::close::{Closing, close};
use board::literal::{literal_of, set_literal};
use board::parts::{Board, Index};
use board::trail::undo;
use formula::view::View;
use rules::{Outcome, Var};

// What a call ends with, and the meter as it then is. The model's values are in the lent buffer.
#[derive(Clone, Copy)]
pub struct CallEnd {
    pub outcome: Outcome,
    pub meter: Meter,
}

// Unless a model was found, what was set since the trail had the length `to` is taken back.
// Rules out: a model taken back; values left after none.
// Required of: go_on and try_value, with the length at their start.
fn take_back(index: &Index, board: &mut Board, to: u16, outcome: Outcome)
    requires { UndoAsked index.now.lists.now index.now.holders.now index.now.marks.now
        board.old.values.now board.old.keys.now board.old.hot.now board.old.trail.now to }
    ensures done { TakenBack index.now.lists.now index.now.holders.now index.now.marks.now
        board.old.values.now board.old.keys.now board.old.hot.now board.old.trail.now to outcome
        board.new.values.now board.new.keys.now board.new.hot.now board.new.trail.now }
    ensures same { SameRoom board.old board.new }
{
    if let Outcome::Model = outcome {
        return;
    }
    undo(index, board, to);
}

// Whether true is tried after a try: if false was, and found nothing.
// Rules out: true tried after a stop; a third try.
fn goes_again(outcome: Outcome, value: bool) -> bool
    ensures { result ≡ goes_again outcome value }
{
    match outcome {
        Outcome::Model => false,
        Outcome::NoModel => !value,
        Outcome::Stopped => false,
    }
}

// Going on: close; on a clash there is no model here; if all variables are set, this is the model; otherwise take the lowest unset
// variable, below which and so below `from` all are set, and try it false, then, if that finds nothing, true.
// Rules out: the model with true before false; stopped as none.
// Required of: whole::call_over, for the board that shows the values at the start; try_value, which requires it too.
#[cycle(go_on_try_value)]
pub fn go_on(
    view: &View,
    index: &Index,
    board: &mut Board,
    total: usize,
    from: usize,
    meter: Meter,
) -> CallEnd
    requires { GoOver view.now.entries.now view.now.starts.now view.now.constraint.now
        index.now.lists.now index.now.holders.now index.now.marks.now
        board.old.values.now board.old.keys.now board.old.hot.now board.old.trail.now total from }
    ensures done { WentOn view.now.entries.now view.now.constraint.now index.now.lists.now index.now.holders.now index.now.marks.now
        board.old.values.now board.old.trail.now total meter result
        board.new.values.now board.new.keys.now board.new.hot.now board.new.trail.now }
    ensures same { SameRoom board.old board.new }
{
    let to = board.trail[0];
    if let Closing::Clash(_) = close(view, index, board, total) {
        take_back(index, board, to, Outcome::NoModel);
        return CallEnd {
            outcome: Outcome::NoModel,
            meter,
        };
    }
    let Some(v) = lowest_on(board, from) else {
        return CallEnd {
            outcome: Outcome::Model,
            meter,
        };
    };
    let mut rest = meter;
    let mut value = false;
    // Stays a `loop`: a `for` over both values would have an end behind it that is never reached.
    loop {
        let end = try_value(view, index, board, total, rest, v, value);
        let outcome = end.outcome;
        if goes_again(outcome, value) {
            rest = end.meter;
            value = true;
        } else {
            take_back(index, board, to, outcome);
            return end;
        }
    }
}

// Trying a value means setting it and going on. Each value tried is one try; if the budget is spent, the call stops there.
// Rules out: a try not counted; the variable left set after none.
// Required of: go_on, for the lowest unset variable.
#[cycle(go_on_try_value)]
pub fn try_value(
    view: &View,
    index: &Index,
    board: &mut Board,
    total: usize,
    meter: Meter,
    v: Var,
    value: bool,
) -> CallEnd
    requires { TryBegins view.now.entries.now view.now.starts.now view.now.constraint.now
        index.now.lists.now index.now.holders.now index.now.marks.now
        board.old.values.now board.old.keys.now board.old.hot.now board.old.trail.now total v.0 }
    ensures done { Tried view.now.entries.now view.now.constraint.now index.now.lists.now index.now.holders.now index.now.marks.now
        board.old.values.now board.old.trail.now total meter v.0 value result
        board.new.values.now board.new.keys.now board.new.hot.now board.new.trail.now }
    ensures same { SameRoom board.old board.new }
{
    let Some(left) = meter.ask_try() else {
        return CallEnd {
            outcome: Outcome::Stopped,
            meter,
        };
    };
    let to = board.trail[0];
    set_literal(index, board, literal_of(v, value));
    let end = go_on(view, index, board, total, v.0 as usize, left);
    let outcome = end.outcome;
    take_back(index, board, to, outcome);
    end
}
