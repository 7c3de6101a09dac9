// What a board is made of.
ghost use Rattle.std.specs.Prelude.{◌≡◌, ◌≤◌, length};
ghost use Rattle.formula.specs.Clauses.{ClauseUpTo, first_unset};
ghost use Rattle.board.specs.Blocks.{HotBlocks, NextHot};

use crate::hot::next_hot;
use formula::unset::first_unset;
use rules::Lit;

// Who holds a literal, cut by starts, and a mark for each literal that the constraint holds: what is only read while literals are set
// and unset.
#[derive(Clone, Copy)]
pub struct Index<'a> {
    pub lists: &'a [u16],
    pub holders: &'a [u16],
    pub marks: &'a [u8],
}

// What changes with each literal: the values, a key for each clause and for the constraint, how many clauses of each block are hot, and
// the trail.
#[derive(Drop)]
pub struct Board<'a> {
    pub values: &'a mut [u8],
    pub keys: &'a mut [u32],
    pub hot: &'a mut [u16],
    pub trail: &'a mut [u16],
}

// Copies values, one by one: what C links asks for `memcpy` and `memset` alone (igbezolum.h), and `copy_from_slice` of what stands in a board
// asks for `memmove`.
// Rules out: the last value left out; values kept that stood there.
// Required of: Board::copy_values, which requires it too.
fn copy(from: &[u8], to: &mut [u8])
    requires { length to.old ≡ length from.now }
    ensures { to.new ≡ from.now }
{
    for (i, value) in to.iter_mut().enumerate() {
        *value = from[i];
    }
}

impl<'a> Board<'a> {
    // The index of the first hot clause from `from` on, or the number of clauses where there is none.
    // Rules out: a unit passed by; a hot clause before `from`.
    // Required of: round::round, from its cursor.
    pub fn next_hot(&self, from: usize) -> usize
        requires { (from ≤ length self.now.keys.now) × HotBlocks self.now.keys.now self.now.hot.now }
        ensures { NextHot self.now.keys.now from result }
    {
        next_hot(self.keys, self.hot, from)
    }

    // The first unset literal of a clause, by the values that the board shows.
    // Rules out: a literal that is set; nothing where only the last literal is unset.
    // Required of: round::round, for a hot clause.
    pub fn first_unset(&self, clause: &[i32]) -> Option<Lit>
        requires { ClauseUpTo (length self.now.values.now) clause.now }
        ensures { result ≡ first_unset self.now.values.now clause.now }
    {
        first_unset(clause, self.values)
    }

    // Copies the values that the board shows.
    // Rules out: the last value left out; values of another board.
    // Required of: search::whole::call_over and whole_close, over as many values.
    pub fn copy_values(&self, to: &mut [u8])
        requires { length to.old ≡ length self.now.values.now }
        ensures { to.new ≡ self.now.values.now }
    {
        copy(self.values, to);
    }
}
