// A literal is set or unset: values, keys and trail go together.
ghost use Rattle.std.specs.Prelude.{◌≡◌, pred, ◌≤◌, length};
ghost use Rattle.rules.specs.Numbers.{max_vars};
ghost use Rattle.rules.specs.Meaning.{LitUpTo, assign};
ghost use Rattle.rules.specs.Run.{literal_at};
ghost use Rattle.formula.specs.Literals.{byte_of};
ghost use Rattle.board.specs.Boards.{SameRoom, SetAsked, SetDone, UnsetAsked, UnsetDone};

use crate::code::{code_of, other_code};
use crate::keys::change_at;
use crate::parts::{Board, Index};
use crate::trail::push;
use formula::lit::{negated, sign, var_of};
use formula::value::{byte_of, index_of};
use rules::{Lit, Var};

// The literal of a variable that a value makes true.
// Rules out: the other sign; the literal of the variable behind it.
// Required of: show::show_one and search::call::try_value, for a variable of 1 to V.
pub fn literal_of(v: Var, value: bool) -> Lit
    requires { (1 ≤ v.0) × (v.0 ≤ max_vars) }
    ensures { result.0 ≡ literal_at (pred v.0) (byte_of value) }
{
    let l = Lit(v.0 as i32);
    if value { l } else { negated(l) }
}

// Makes a literal true in the values.
// Rules out: the opposite value; a second variable set.
// Required of: set_literal, which requires it too.
pub fn make_true(values: &mut [u8], l: Lit)
    requires { LitUpTo (length values.old) l.0 }
    ensures { values.new ≡ assign values.old l.0 }
{
    let at = index_of(var_of(l));
    values[at] = byte_of(sign(l));
}

// Makes an unset literal true: whoever holds it has one true literal more and an unset one less, and whoever holds its negation an
// unset one less. It goes on the trail.
// Rules out: the holders of the negation forgotten; a literal set and not on the trail.
// Required of: round::round, for the literal of a unit; show::show_one and search::call::try_value, for an unset variable.
pub fn set_literal(index: &Index, board: &mut Board, l: Lit)
    requires { SetAsked index.now.lists.now index.now.holders.now index.now.marks.now
        board.old.values.now board.old.keys.now board.old.hot.now board.old.trail.now l.0 }
    ensures done { SetDone index.now.lists.now index.now.holders.now index.now.marks.now
        board.old.values.now board.old.keys.now board.old.hot.now board.old.trail.now l.0
        board.new.values.now board.new.keys.now board.new.hot.now board.new.trail.now }
    ensures same { SameRoom board.old board.new }
{
    let k = code_of(l);
    make_true(board.values, l);
    change_at(index, board.keys, board.hot, k, 65535, 0);
    change_at(index, board.keys, board.hot, other_code(k), 0, 1);
    push(board.trail, k);
}

// Takes the value of the last literal on the trail away, and the literal off the trail.
// Rules out: the value left; the holders of the negation forgotten.
// Required of: trail::undo, for a trail that leads somewhere.
pub fn unset_last(index: &Index, board: &mut Board)
    requires { UnsetAsked index.now.lists.now index.now.holders.now index.now.marks.now
        board.old.values.now board.old.keys.now board.old.hot.now board.old.trail.now }
    ensures done { UnsetDone index.now.lists.now index.now.holders.now index.now.marks.now
        board.old.values.now board.old.keys.now board.old.hot.now board.old.trail.now
        board.new.values.now board.new.keys.now board.new.hot.now board.new.trail.now }
    ensures same { SameRoom board.old board.new }
{
    let n = board.trail[0];
    let k = board.trail[n as usize] as usize;
    board.trail[0] = n - 1;
    board.values[k / 2] = 0;
    change_at(index, board.keys, board.hot, k, 0, 65535);
    change_at(index, board.keys, board.hot, other_code(k), 1, 0);
}
