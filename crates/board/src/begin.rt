// What a run begins with: the index of who holds a literal, made once, and the first board, with an empty constraint.
ghost use Rattle.std.specs.Prelude.{length};
ghost use Rattle.board.specs.Begins.{BeginAsked, Begun};
ghost use Rattle.board.specs.Chains.{SameChains};

use crate::chain::{Chains, build_index};
use crate::first::first_board;
use crate::parts::Index;

// Makes the index of the entry list's `count` clauses, and the board that shows no value. The heads and the hot blocks are blank before.
// Rules out: marks that an older run has left; a board of another list.
// Required of: whoever begins a run, with room for the list.
pub fn begin(
    entries: &[i32],
    chains: &mut Chains,
    lists: &mut [u16],
    holders: &mut [u16],
    marks: &mut [u8],
    values: &mut [u8],
    keys: &mut [u32],
    hot: &mut [u16],
    trail: &mut [u16],
    count: usize,
)
    requires { BeginAsked count entries.now chains.old.heads.now chains.old.nexts.now chains.old.owners.now
        lists.old holders.old marks.old
        values.old keys.old hot.old trail.old }
    ensures done { Begun entries.now (length values.old) lists.new holders.new marks.new
        values.new keys.new hot.new trail.new }
    ensures same { SameChains chains.old chains.new }
{
    let vars = values.len();
    build_index(entries, chains, lists, holders, vars, count);
    marks.fill(0);
    let index = Index {
        lists,
        holders,
        marks,
    };
    first_board(&index, values, keys, hot, trail);
}
