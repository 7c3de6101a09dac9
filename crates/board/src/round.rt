// A round over the hot clauses alone, docs/RULES.md, "Closing": it comes to what a round over every clause comes to. It goes by a
// cursor, so that what becomes hot behind it waits for the next round.
ghost use Rattle.board.specs.Boards.{SameRoom};
ghost use Rattle.board.specs.Closings.{BoardOver, RoundDone};

use crate::literal::set_literal;
use crate::parts::{Board, Index};
use formula::view::View;
use rules::ClauseNo;

// One round over the first `total` clauses, the constraint last: the number of literals that it set, or `None` at a false clause.
// Rules out: a clause behind the cursor visited in the same round; a false clause passed over.
// Required of: close, which requires it too.
pub fn round(view: &View, index: &Index, board: &mut Board, total: usize) -> Option<u32>
    requires { BoardOver view.now.entries.now view.now.starts.now view.now.constraint.now
        index.now.lists.now index.now.holders.now index.now.marks.now
        board.old.values.now board.old.keys.now board.old.hot.now board.old.trail.now total }
    ensures done { RoundDone view.now.entries.now view.now.constraint.now index.now.lists.now index.now.holders.now index.now.marks.now
        board.old.values.now board.old.trail.now total result
        board.new.values.now board.new.keys.now board.new.hot.now board.new.trail.now }
    ensures same { SameRoom board.old board.new }
{
    let mut set = 0;
    let mut n = 0;
    // Stays a `while`: next_hot says how far to go on.
    while n < total {
        let at = board.next_hot(n);
        if total <= at {
            return Some(set);
        }
        n = at + 1;
        if board.keys[at] == 0 {
            return None;
        }
        let clause = view.clause(ClauseNo(n as u32));
        // Always: a hot clause whose key is not 0 has an unset literal.
        if let Some(l) = board.first_unset(clause) {
            set_literal(index, board, l);
            set += 1;
        }
    }
    Some(set)
}
