// A clause by its number, docs/RULES.md, "Meaning": a part of the entry list, or the constraint.
ghost use Rattle.std.specs.Prelude.{◌≡◌};
ghost use Rattle.formula.specs.Starts.{Lookup, clause_at};

use rules::ClauseNo;

// Clause n, from 1: the part of the entry list from its start to the zero that ends it; after the last one the constraint.
// Rules out: a clause without its last literal; the constraint for the formula's last clause.
// Required of: view::View::clause, which requires it too, and whoever has a clause's number and no view.
pub fn clause_at<'a>(
    entries: &'a [i32],
    starts: &[u16],
    constraint: &'a [i32],
    n: ClauseNo,
) -> &'a [i32]
    requires { Lookup entries.now starts.now n.0 }
    ensures { result.now ≡ clause_at entries.now constraint.now n.0 }
{
    let k = n.0 as usize;
    if k < starts.len() {
        let from = starts[k - 1] as usize;
        let to = starts[k] as usize - 1;
        &entries[from..to]
    } else {
        constraint
    }
}
