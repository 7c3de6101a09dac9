// The first clause of a formula that has no true literal, docs/RULES.md, "Meaning".
ghost use Rattle.std.specs.Prelude.{◌≡◌, length};
ghost use Rattle.rules.specs.Meaning.{clauses, first_false};
ghost use Rattle.formula.specs.Formula.{Formula, first_false_of};

use crate::state::has_true;
use crate::view::View;
use rules::ClauseNo;

// The first clause that has no true literal under values, if there is one.
// Rules out: the last such clause; an index, from 0, for the number.
// Required of: steps::flip::flip_test, which requires it too.
pub fn first_false(entries: &[i32], starts: &[u16], values: &[u8]) -> Option<ClauseNo>
    requires { Formula (length values.now) entries.now starts.now }
    ensures { result ≡ first_false_of (first_false values.now (clauses entries.now)) }
{
    let view = View {
        entries,
        vars: values.len(),
        starts,
        constraint: &[],
    };
    for k in 1..starts.len() {
        let n = ClauseNo(k as u32);
        if !has_true(view.clause(n), values) {
            return Some(n);
        }
    }
    None
}
