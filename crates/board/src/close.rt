// Closing by rounds, docs/RULES.md, "Closing": until a round sets nothing or a clause is false. The rounds are counted.
ghost use Rattle.board.specs.Boards.{SameRoom};
ghost use Rattle.board.specs.Closings.{BoardOver, CloseDone};

use crate::parts::{Board, Index};
use crate::round::round;
use formula::view::View;

// What closing ends with, a clash or the closed set in the lent values, and how many rounds it took.
// Stays an enum: a Result would be no plainer, since a clash is no error, and `Err(2)` would not say that 2 are its rounds.
#[derive(Clone, Copy)]
pub enum Closing {
    Clash(u32),
    Closed(u32),
}

// Rounds until one sets nothing, or meets a false clause. After a clash the values are somewhere between.
// Rules out: a clash as closed; the last round not counted.
// Required of: search::call::go_on, which requires it too.
pub fn close(view: &View, index: &Index, board: &mut Board, total: usize) -> Closing
    requires { BoardOver view.now.entries.now view.now.starts.now view.now.constraint.now
        index.now.lists.now index.now.holders.now index.now.marks.now
        board.old.values.now board.old.keys.now board.old.hot.now board.old.trail.now total }
    ensures done { CloseDone view.now.entries.now view.now.constraint.now index.now.lists.now index.now.holders.now index.now.marks.now
        board.old.values.now board.old.trail.now total result
        board.new.values.now board.new.keys.now board.new.hot.now board.new.trail.now }
    ensures same { SameRoom board.old board.new }
{
    let mut rounds = 0;
    // Stays a `loop`: rounds are made until one sets nothing.
    loop {
        rounds += 1;
        let Some(set) = round(view, index, board, total) else {
            return Closing::Clash(rounds);
        };
        if set == 0 {
            return Closing::Closed(rounds);
        }
    }
}
