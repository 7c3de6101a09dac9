// The trail: its length, and then the literals that were made true, by number, in order. They are unset in the opposite order.
ghost use Rattle.std.specs.Prelude.{◌≡◌, ◌+◌, ◌<◌, length};
ghost use Rattle.board.specs.Boards.{SameRoom, trail_len, pushed};
ghost use Rattle.board.specs.Trails.{UndoAsked, Undone};

use crate::literal::unset_last;
use crate::parts::{Board, Index};

// Puts a number on the trail.
// Rules out: the length left; the number put over the last one.
// Required of: literal::set_literal, where a variable is unset.
pub fn push(trail: &mut [u16], k: usize)
    requires { (trail_len trail.old + 1 < length trail.old) × (trail_len trail.old < 65535) × (k < 65536) }
    ensures { trail.new ≡ pushed trail.old k }
{
    let n = trail[0] + 1;
    trail[n as usize] = k as u16;
    trail[0] = n;
}

// Unsets the literals of the trail from its end down to the length `to`.
// Rules out: one literal too few; the keys left as they were.
// Required of: search::call::take_back, for a length that the trail has had.
pub fn undo(index: &Index, board: &mut Board, to: u16)
    requires { UndoAsked index.now.lists.now index.now.holders.now index.now.marks.now
        board.old.values.now board.old.keys.now board.old.hot.now board.old.trail.now to }
    ensures done { Undone index.now.lists.now index.now.holders.now index.now.marks.now
        board.old.values.now board.old.keys.now board.old.hot.now board.old.trail.now to
        board.new.values.now board.new.keys.now board.new.hot.now board.new.trail.now }
    ensures same { SameRoom board.old board.new }
{
    // Stays a `while`: what is counted is the trail's own length, which unset_last takes down.
    while to < board.trail[0] {
        unset_last(index, board);
    }
}
