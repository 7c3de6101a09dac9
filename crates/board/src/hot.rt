// The hot clauses, found by their blocks.
ghost use Rattle.std.specs.Prelude.{◌≤◌, length};
ghost use Rattle.board.specs.Blocks.{HotBlocks, NextHot};

// The index of the first hot clause from `from` on, or the number of clauses where there is none. A block with none is passed at once.
// Rules out: a unit passed by; a hot clause before `from`.
// Required of: parts::Board::next_hot, which requires it too.
pub fn next_hot(keys: &[u32], hot: &[u16], from: usize) -> usize
    requires { (from ≤ length keys.now) × HotBlocks keys.now hot.now }
    ensures { NextHot keys.now from result }
{
    let mut i = from;
    // Stays a `while`: a block with no hot clause is passed at once.
    while i < keys.len() {
        let block = i / 32;
        if hot[block] == 0 {
            i = 32 * block + 32;
        } else if keys[i] <= 1 {
            return i;
        } else {
            i += 1;
        }
    }
    keys.len()
}
