// The first board: no variable has a value, so that the key of a clause is the number of its distinct literals.
ghost use Rattle.std.specs.Prelude.{replicate};
ghost use Rattle.board.specs.Blocks.{HotBlocks};
ghost use Rattle.board.specs.Firsts.{Blocks, CountAsked, Counted, FirstAsked, FirstDone};

use crate::keys::change_at;
use crate::parts::Index;

// The hot blocks of `count` clauses with key 0, all of which are hot.
// Rules out: a block that counts none; the last block counted full.
// Required of: first_board, for as many clauses as there are keys.
fn all_hot(hot: &mut [u16], count: usize)
    requires { Blocks count hot.old }
    ensures { HotBlocks (replicate count 0) hot.new }
{
    for i in 0..count {
        hot[i / 32] += 1;
    }
}

// Counts the distinct literals of each clause: for each literal one more at every clause that holds it.
// Rules out: a literal counted for each of its places; a clause that is passed over.
// Required of: first_board, from keys that are all 0.
fn count_all(index: &Index, keys: &mut [u32], hot: &mut [u16], vars: usize)
    requires { CountAsked vars index.now.lists.now index.now.holders.now index.now.marks.now keys.old hot.old }
    ensures { Counted vars index.now.lists.now index.now.holders.now index.now.marks.now keys.old keys.new hot.new }
{
    for k in 0..2 * vars {
        change_at(index, keys, hot, k, 1, 0);
    }
}

// Takes every value away, counts every key, and empties the trail. The hot blocks are blank before.
// Rules out: keys of the values that were there; a trail that holds something.
// Required of: begin::begin, with the index of who holds a literal.
pub fn first_board(
    index: &Index,
    values: &mut [u8],
    keys: &mut [u32],
    hot: &mut [u16],
    trail: &mut [u16],
)
    requires { FirstAsked index.now.lists.now index.now.holders.now index.now.marks.now
        values.old keys.old hot.old trail.old }
    ensures { FirstDone index.now.lists.now index.now.holders.now index.now.marks.now
        values.old keys.old
        values.new keys.new hot.new trail.new }
{
    values.fill(0);
    keys.fill(0);
    all_hot(hot, keys.len());
    count_all(index, keys, hot, values.len());
    trail[0] = 0;
}
