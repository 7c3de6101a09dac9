// The constraint stands behind the last clause: its key is the last one, and a mark for each literal says whether it holds it. A new one
// is marked and counted from its last literal to its first, so that a literal that stands twice is met with its mark.
ghost use Rattle.std.specs.Prelude.{◌≡◌};
ghost use Rattle.board.specs.Boards.{SameRoom};
ghost use Rattle.board.specs.Constraints.{MarkAsked, MarkDone, MarksAsked, MarksDone, RenewAsked, Renewed};

use crate::code::code_of;
use crate::keys::put_key;
use crate::parts::Board;
use formula::value::{is_true, is_unset};
use rules::Lit;

// Marks a literal, and returns the key with it, unless it was marked before.
// Rules out: a literal that stands twice counted twice; a false literal counted.
// Required of: mark_all, for the literals of the constraint.
fn mark(values: &[u8], marks: &mut [u8], l: Lit, key: u32) -> u32
    requires { MarkAsked values.now marks.old l.0 key }
    ensures { MarkDone values.now marks.old l.0 key result marks.new }
{
    let k = code_of(l);
    let before = marks[k];
    marks[k] = 1;
    if before == 1 {
        return key;
    }
    if is_true(l, values) {
        key + 65536
    } else if is_unset(l, values) {
        key + 1
    } else {
        key
    }
}

// Marks each literal of the constraint, and returns its key. No literal is marked before.
// Rules out: the first literal without a mark; the key of another constraint.
// Required of: renew, which clears the marks.
fn mark_all(constraint: &[i32], values: &[u8], marks: &mut [u8]) -> u32
    requires { MarksAsked constraint.now values.now marks.old }
    ensures { MarksDone constraint.now values.now result marks.new }
{
    let mut key = 0;
    for i in (0..constraint.len()).rev() {
        key = mark(values, marks, Lit(constraint[i]), key);
    }
    key
}

// Puts a new constraint in the place of the old one.
// Rules out: the marks of the old one left; its key left.
// Required of: Board::renew, which requires it too.
pub fn renew(constraint: &[i32], marks: &mut [u8], values: &[u8], keys: &mut [u32], hot: &mut [u16])
    requires { RenewAsked constraint.now marks.old values.now keys.old hot.old }
    ensures { Renewed constraint.now marks.old values.now keys.old hot.old
        marks.new keys.new hot.new }
{
    marks.fill(0);
    let key = mark_all(constraint, values, marks);
    let last = keys.len() - 1;
    put_key(keys, hot, last, key);
}

impl<'a> Board<'a> {
    // A new constraint on the board. The values are lent as `&mut` too: the borrow checker covers no `&` beside a `&mut` through one reference.
    // Rules out: the marks of the old one left; its key left; a value changed.
    // Required of: whoever makes a call with a constraint over the variables.
    pub fn renew(&mut self, constraint: &[i32], marks: &mut [u8])
        requires { RenewAsked constraint.now marks.old self.old.values.now self.old.keys.now self.old.hot.now }
        ensures done { Renewed constraint.now marks.old self.old.values.now self.old.keys.now self.old.hot.now
            marks.new self.new.keys.now self.new.hot.now }
        ensures values { self.new.values.now ≡ self.old.values.now }
        ensures trail { self.new.trail.now ≡ self.old.trail.now }
        ensures same { SameRoom self.old self.new }
    {
        renew(
            constraint,
            marks,
            &mut *self.values,
            &mut *self.keys,
            &mut *self.hot,
        );
    }
}
