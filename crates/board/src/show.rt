// Values that the board is to show, as a call starts from the literals forced so far: what has a value and none on the board is set.
ghost use Rattle.board.specs.Boards.{SameRoom};
ghost use Rattle.board.specs.Shown.{OneAsked, OneShown, ShowAsked, Shown};

use crate::literal::{literal_of, set_literal};
use crate::parts::{Board, Index};
use rules::Var;

// Gives the variable at an index the value that a byte says, unless it has it already, or the byte is 0.
// Rules out: a variable set twice; the opposite value.
// Required of: show, for the bytes that are wanted.
fn show_one(index: &Index, board: &mut Board, i: usize, byte: u8)
    requires { OneAsked index.now.lists.now index.now.holders.now index.now.marks.now
        board.old.values.now board.old.keys.now board.old.hot.now board.old.trail.now i byte }
    ensures done { OneShown index.now.lists.now index.now.holders.now index.now.marks.now
        board.old.values.now board.old.keys.now board.old.hot.now board.old.trail.now i byte
        board.new.values.now board.new.keys.now board.new.hot.now board.new.trail.now }
    ensures same { SameRoom board.old board.new }
{
    if byte == 0 {
        return;
    }
    if board.values[i] != 0 {
        return;
    }
    let l = literal_of(Var(i as u32 + 1), byte == 2);
    set_literal(index, board, l);
}

// Sets every variable that has a value in `wanted` and none on the board.
// Rules out: the last variable left unset; a variable set that has no value there.
// Required of: whoever makes a call from the literals forced so far, of which those on the board are some.
pub fn show(wanted: &[u8], index: &Index, board: &mut Board)
    requires { ShowAsked wanted.now index.now.lists.now index.now.holders.now index.now.marks.now
        board.old.values.now board.old.keys.now board.old.hot.now board.old.trail.now }
    ensures done { Shown wanted.now index.now.lists.now index.now.holders.now index.now.marks.now
        board.old.values.now board.old.keys.now board.old.hot.now board.old.trail.now
        board.new.values.now board.new.keys.now board.new.hot.now board.new.trail.now }
    ensures same { SameRoom board.old board.new }
{
    for (i, byte) in wanted.iter().enumerate() {
        show_one(index, board, i, *byte);
    }
}
