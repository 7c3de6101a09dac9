// The state of a clause under values, docs/RULES.md, "Closing".
ghost use Rattle.std.specs.Prelude.{◌≡◌, length};
ghost use Rattle.rules.specs.Meaning.{has_true};
ghost use Rattle.rules.specs.Closing.{state_of};
ghost use Rattle.formula.specs.Clauses.{ClauseUpTo};

use crate::unset::{first_unset, has_other_unset};
use crate::value::is_true;
use rules::{ClauseState, Lit};

// Whether a clause has a true literal.
// Rules out: true for the empty clause; false where only the last literal is true.
// Required of: first_false, by clause_at_up_to; state_of, which requires it too.
pub fn has_true(clause: &[i32], values: &[u8]) -> bool
    requires { ClauseUpTo (length values.now) clause.now }
    ensures { result ≡ has_true values.now clause.now }
{
    clause.iter().any(|l| is_true(Lit(*l), values))
}

// What a clause is: true with a true literal; with none, its distinct unset literals decide: none, it is false; exactly one, a unit;
// two, undecided.
// Rules out: a unit for "1 -1 0"; undecided for "1 1 0".
// Required of: whoever asks what a clause is; no one in these crates does any more.
pub fn state_of(clause: &[i32], values: &[u8]) -> ClauseState
    requires { ClauseUpTo (length values.now) clause.now }
    ensures { result ≡ state_of values.now clause.now }
{
    if has_true(clause, values) {
        return ClauseState::True;
    }
    match first_unset(clause, values) {
        None => ClauseState::False,
        Some(l) => {
            if has_other_unset(clause, values, l) {
                ClauseState::Undecided
            } else {
                ClauseState::Unit(l)
            }
        }
    }
}
