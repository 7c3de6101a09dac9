// The unset literals of a clause, docs/RULES.md, "Closing": the first, and whether there is another. Distinct literals count and not
// places.
ghost use Rattle.std.specs.Prelude.{◌≡◌, length};
ghost use Rattle.formula.specs.Clauses.{ClauseUpTo, first_unset, has_other_unset};

use crate::value::is_unset;
use rules::Lit;

// The first unset literal of a clause.
// Rules out: 2 for "1 2 0" where both are unset; nothing where only the last literal is unset.
// Required of: state_of, which requires it too.
pub fn first_unset(clause: &[i32], values: &[u8]) -> Option<Lit>
    requires { ClauseUpTo (length values.now) clause.now }
    ensures { result ≡ first_unset values.now clause.now }
{
    for entry in clause {
        let l = Lit(*entry);
        if is_unset(l, values) {
            return Some(l);
        }
    }
    None
}

// Whether a clause has an unset literal other than l.
// Rules out: true for "1 1 0" and literal 1; false for "1 -1 0" and literal 1 where variable 1 is unset.
// Required of: state_of, which requires it too.
pub fn has_other_unset(clause: &[i32], values: &[u8], l: Lit) -> bool
    requires { ClauseUpTo (length values.now) clause.now }
    ensures { result ≡ has_other_unset values.now l.0 clause.now }
{
    clause
        .iter()
        .any(|k| *k != l.0 && is_unset(Lit(*k), values))
}
