// The choice of a variable by values, a byte for each.
ghost use Rattle.std.specs.Prelude.{◌≡◌, ◌≤◌, length};
ghost use Rattle.rules.specs.Numbers.{max_vars};
ghost use Rattle.rules.specs.Search.{lowest_unset};
ghost use Rattle.search.specs.Choices.{choice_of};
ghost use Rattle.search.specs.Boards.{SetBelow};

use board::parts::Board;
use rules::Var;

// The lowest unset variable, if not all are set, from an index below which all variables are set.
// Rules out: an unset variable behind another; none with one left.
// Required of: lowest_on, which requires it too.
pub fn lowest_from(values: &[u8], from: usize) -> Option<Var>
    requires { (length values.now ≤ max_vars) × SetBelow from values.now }
    ensures { result ≡ choice_of (lowest_unset values.now) }
{
    for i in from..values.len() {
        if values[i] == 0 {
            return Some(Var(i as u32 + 1));
        }
    }
    None
}

// The same by the values that a board shows.
// Rules out: an unset variable behind another; none with one left.
// Required of: call::go_on, for the board that it has closed.
pub fn lowest_on(board: &Board, from: usize) -> Option<Var>
    requires { (length board.now.values.now ≤ max_vars) × SetBelow from board.now.values.now }
    ensures { result ≡ choice_of (lowest_unset board.now.values.now) }
{
    lowest_from(board.values, from)
}
