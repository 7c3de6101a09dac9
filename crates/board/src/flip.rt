// Flips by counts, docs/RULES.md, "Run": in a model, a flip of a true literal can make false only a clause that holds it and has no
// second true literal.
ghost use Rattle.std.specs.Prelude.{◌≡◌, not, [], get_or};
ghost use Rattle.rules.specs.Meaning.{clauses, has_true, first_false};
ghost use Rattle.formula.specs.Formula.{first_false_of};
ghost use Rattle.board.specs.Flips.{FalseAsked, FirstsAsked, HeldOver, first_at};

use crate::code::code_of;
use formula::clause::clause_at;
use formula::state::has_true;
use rules::{ClauseNo, Lit};

// Whether the clause at an index is false under flipped values. Its key is that of the model: two true literals are enough.
// Rules out: a clause with a second true literal; true for a clause that holds both signs.
// Required of: first_in, for the clauses of a list.
fn is_false_at(entries: &[i32], starts: &[u16], keys: &[u32], values: &[u8], c: usize) -> bool
    requires { FalseAsked entries.now starts.now keys.now values.now c }
    ensures { result ≡ not (has_true values.now (get_or (clauses entries.now) c [])) }
{
    if keys[c] >= 131072 {
        return false;
    }
    let clause = clause_at(entries, starts, &[], ClauseNo(c as u32 + 1));
    !has_true(clause, values)
}

// The first clause of a list that is false under flipped values.
// Rules out: the last one; an index, from 0, for the number.
// Required of: first_held, for the list of a literal.
fn first_in(
    entries: &[i32],
    starts: &[u16],
    list: &[u16],
    keys: &[u32],
    values: &[u8],
) -> Option<ClauseNo>
    requires { FirstsAsked entries.now starts.now list.now keys.now values.now }
    ensures { result ≡ first_false_of (first_at values.now (clauses entries.now) list.now) }
{
    for c in list {
        if is_false_at(entries, starts, keys, values, *c as usize) {
            return Some(ClauseNo(*c as u32 + 1));
        }
    }
    None
}

// The first clause of the formula that a flip makes false, by the list of the literal that was true.
// Rules out: a clause that does not hold the literal; nothing where one clause is held by it alone.
// Required of: whoever flips a variable of a model that the board shows.
pub fn first_held(
    entries: &[i32],
    starts: &[u16],
    lists: &[u16],
    holders: &[u16],
    keys: &[u32],
    values: &[u8],
    l: Lit,
) -> Option<ClauseNo>
    requires { HeldOver entries.now starts.now lists.now holders.now keys.now values.now l.0 }
    ensures { result ≡ first_false_of (first_false values.now (clauses entries.now)) }
{
    let k = code_of(l);
    let from = lists[k] as usize;
    let to = lists[k + 1] as usize;
    first_in(entries, starts, &holders[from..to], keys, values)
}
