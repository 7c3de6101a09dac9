// The keys of the clauses: true literals in the upper half, unset ones in the lower half. A clause is hot if its key is below 2, and
// for each block of 32 clauses it is kept how many are hot.
ghost use Rattle.std.specs.Prelude.{◌≡◌, ◌<◌, ◌-◌, length, set};
ghost use Rattle.board.specs.Holders.{ChangesAsked, ChangeAsked, Changed, holders_at};
ghost use Rattle.board.specs.Blocks.{HotBlocks};

use crate::parts::Index;

// Gives a clause a new key.
// Rules out: a hot clause that its block does not count; a block that counts a clause twice.
// Required of: change_all, for the clauses of a list; change_at, constraint::renew and Board::renew, for the constraint.
pub fn put_key(keys: &mut [u32], hot: &mut [u16], i: usize, key: u32)
    requires { (i < length keys.old) × HotBlocks keys.old hot.old }
    ensures { (keys.new ≡ set keys.old i key) × HotBlocks keys.new hot.new }
{
    let block = i / 32;
    if keys[i] <= 1 {
        if key > 1 {
            hot[block] -= 1;
        }
    } else if key <= 1 {
        hot[block] += 1;
    }
    keys[i] = key;
}

// Adds and takes away a number at each key of a list of clauses.
// Rules out: the last clause forgotten; a clause changed twice.
// Required of: change_at, for the list of a literal.
pub fn change_all(clauses: &[u16], keys: &mut [u32], hot: &mut [u16], add: u32, less: u32)
    requires { ChangesAsked add less clauses.now keys.old hot.old }
    ensures { Changed add less clauses.now keys.old keys.new hot.new }
{
    for clause in clauses {
        let i = *clause as usize;
        let key = keys[i] + add - less;
        put_key(keys, hot, i, key);
    }
}

// The same at each clause that holds the literal with number k, and at the constraint, whose key is the last one, if it does.
// Rules out: the constraint forgotten; the list of the negation.
// Required of: literal::set_literal and literal::unset_last, by set_asks and unset_asks; first::count_all.
pub fn change_at(index: &Index, keys: &mut [u32], hot: &mut [u16], k: usize, add: u32, less: u32)
    requires { ChangeAsked add less k index.now.lists.now index.now.holders.now index.now.marks.now keys.old hot.old }
    ensures { Changed add less (holders_at index.now.lists.now index.now.holders.now index.now.marks.now (length keys.old - 1) k)
        keys.old keys.new hot.new }
{
    let from = index.lists[k] as usize;
    let to = index.lists[k + 1] as usize;
    change_all(&index.holders[from..to], keys, hot, add, less);
    if index.marks[k] == 1 {
        let last = keys.len() - 1;
        let key = keys[last] + add - less;
        put_key(keys, hot, last, key);
    }
}
