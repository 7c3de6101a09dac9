// The formula and the constraint as clauses 1, 2, 3 and so on, docs/RULES.md, "Meaning": a view holds the entry list and the number of
// variables V, and by what a clause is found.
ghost use Rattle.std.specs.Prelude.{◌≡◌};
ghost use Rattle.formula.specs.Starts.{Lookup, clause_at};

use crate::clause::clause_at;
use rules::ClauseNo;

// The entry list and the number of variables; where the clauses start, and the constraint.
#[derive(Clone, Copy)]
pub struct View<'a> {
    pub entries: &'a [i32],
    pub vars: usize,
    pub starts: &'a [u16],
    pub constraint: &'a [i32],
}

impl<'a> View<'a> {
    // Clause n, from 1; after the last one the constraint.
    // Rules out: the formula's last clause for the constraint; the first clause for every n.
    // Required of: board::round::round and first_false, which count from 1 to the last clause.
    pub fn clause(self, n: ClauseNo) -> &'a [i32]
        requires { Lookup self.entries.now self.starts.now n.0 }
        ensures { result.now ≡ clause_at self.entry.entries.now self.entry.constraint.now n.0 }
    {
        clause_at(self.entries, self.starts, self.constraint, n)
    }
}
