// A whole call: the board is made, shows the values at the start, has the constraint, and the call goes over it.
ghost use Rattle.std.specs.Prelude.{length};
ghost use Rattle.search.specs.Calls.{Calls};
ghost use Rattle.rules.specs.Meaning.{clauses};
ghost use Rattle.rules.specs.Run.{blank};
ghost use Rattle.formula.specs.Formula.{Formula};
ghost use Rattle.board.specs.Boards.{SameRoom};
ghost use Rattle.search.specs.Rooms.{SameRooms};
ghost use Rattle.search.specs.Wholes.{CallFrom, CallIn, CalledIn, ClosesBy};

use crate::call::{CallEnd, go_on};
use crate::meter::Meter;
use crate::room::{MAX_BLOCKS, MAX_CODES, MAX_PARTS, MAX_TRAIL, Room, begin_in};
use board::close::{Closing, close};
use board::parts::{Board, Index};
use board::show::show;
use board::trail::undo;
use formula::view::View;

// A call from the values, over a board of the list: what it shows is taken back, then it shows these, and has the constraint. Behind the
// call it shows the call's values.
// Rules out: a call from what the call before has left; a board that shows something else than the model.
// Required of: call_in, which requires it too.
fn call_over(
    view: &View,
    lists: &[u16],
    holders: &[u16],
    marks: &mut [u8],
    shown: &mut Board,
    total: u32,
    values: &mut [u8],
    meter: Meter,
) -> CallEnd
    requires { CallIn view.now.entries.now view.now.starts.now view.now.constraint.now lists.now holders.now marks.old
        shown.old.values.now shown.old.keys.now shown.old.hot.now shown.old.trail.now total values.old }
    ensures done { CalledIn view.now.entries.now view.now.constraint.now total values.old meter result lists.now holders.now marks.new
        shown.new.values.now shown.new.keys.now shown.new.hot.now shown.new.trail.now values.new }
    ensures same { SameRoom shown.old shown.new }
{
    let index = Index {
        lists,
        holders,
        marks,
    };
    undo(&index, shown, 0);
    show(values, &index, shown);
    shown.renew(view.constraint, marks);
    let index = Index {
        lists,
        holders,
        marks,
    };
    let end = go_on(view, &index, shown, total as usize, 0, meter);
    shown.copy_values(values);
    end
}

// The same over the board in the room.
// Rules out: a call over another list; marks of the call before.
// Required of: whole_call, behind the beginning; backbone::first::first_in and calls::next::chunk_in, on the board of a run.
pub fn call_in(view: &View, room: &mut Room, total: u32, values: &mut [u8], meter: Meter) -> CallEnd
    requires { CallIn view.now.entries.now view.now.starts.now view.now.constraint.now
        room.old.lists.now room.old.holders.now room.old.marks.now
        room.old.board.values.now room.old.board.keys.now room.old.board.hot.now room.old.board.trail.now total values.old }
    ensures done { CalledIn view.now.entries.now view.now.constraint.now total values.old meter result
        room.new.lists.now room.new.holders.now room.new.marks.now
        room.new.board.values.now room.new.board.keys.now room.new.board.hot.now room.new.board.trail.now values.new }
    ensures same { SameRooms room.old room.new }
{
    call_over(
        view,
        room.lists,
        room.holders,
        room.marks,
        &mut room.board,
        total,
        values,
        meter,
    )
}

// A call from the values, over a board that is made for it.
// Rules out: a board of another list; values that are not the model's.
// Required of: backbone::first::first_call, calls::next::chunk_call and reason::call::blank_call, after 10, 11 and 12.
pub fn whole_call<'a>(
    entries: &'a [i32],
    starts: &'a [u16],
    constraint: &'a [i32],
    total: u32,
    values: &mut [u8],
    meter: Meter,
) -> CallEnd
    requires { CallFrom values.old entries.now starts.now constraint.now total }
    ensures { Calls entries.now constraint.now total values.old meter result values.new }
{
    let mut lists = [0u16; MAX_PARTS];
    let mut holders = [0u16; rules::MAX_LIST];
    let mut marks = [0u8; MAX_CODES];
    let mut shown = [0u8; rules::MAX_VARS as usize];
    let mut keys = [0u32; rules::MAX_STARTS];
    let mut hot = [0u16; MAX_BLOCKS];
    let mut trail = [0u16; MAX_TRAIL];
    let vars = values.len();
    let count = starts.len();
    begin_in(
        entries,
        starts,
        &mut lists,
        &mut holders,
        &mut marks,
        &mut shown,
        &mut keys,
        &mut hot,
        &mut trail,
        vars,
    );
    let view = View {
        entries,
        vars,
        starts,
        constraint,
    };
    let board = Board {
        values: &mut shown[..vars],
        keys: &mut keys[..count],
        hot: &mut hot,
        trail: &mut trail,
    };
    let mut room = Room {
        lists: &lists,
        holders: &holders,
        marks: &mut marks,
        board,
    };
    call_in(&view, &mut room, total, values, meter)
}

// The closing of a formula from nothing set, over a board that is made for it.
// Rules out: rounds of another list; the values between as a closed set; a closing from the values that were there.
// Required of: closing::on_list, for the starts that it has found.
pub fn whole_close<'a>(entries: &'a [i32], starts: &'a [u16], values: &mut [u8]) -> Closing
    requires { Formula (length values.old) entries.now starts.now }
    ensures { ClosesBy (clauses entries.now) (blank (length values.old)) result values.new }
{
    let mut lists = [0u16; MAX_PARTS];
    let mut holders = [0u16; rules::MAX_LIST];
    let mut marks = [0u8; MAX_CODES];
    let mut shown = [0u8; rules::MAX_VARS as usize];
    let mut keys = [0u32; rules::MAX_STARTS];
    let mut hot = [0u16; MAX_BLOCKS];
    let mut trail = [0u16; MAX_TRAIL];
    let vars = values.len();
    let count = starts.len();
    begin_in(
        entries,
        starts,
        &mut lists,
        &mut holders,
        &mut marks,
        &mut shown,
        &mut keys,
        &mut hot,
        &mut trail,
        vars,
    );
    let index = Index {
        lists: &lists,
        holders: &holders,
        marks: &marks,
    };
    let mut board = Board {
        values: &mut shown[..vars],
        keys: &mut keys[..count],
        hot: &mut hot,
        trail: &mut trail,
    };
    let view = View {
        entries,
        vars,
        starts,
        constraint: &[],
    };
    let closing = close(&view, &index, &mut board, count - 1);
    board.copy_values(values);
    closing
}
