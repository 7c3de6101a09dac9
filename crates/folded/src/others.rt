// The clauses that hold no forced literal, counted and put.
ghost use Rattle.std.specs.Prelude.{◌≡◌, [], length};
ghost use Rattle.rules.specs.Lists.{count, pieces};
ghost use Rattle.rules.specs.Meaning.{clauses};
ghost use Rattle.formula.specs.Formula.{Formula};
ghost use Rattle.formula.specs.Starts.{clause_at};
ghost use Rattle.buffers.specs.Put.{Put, Room};
ghost use Rattle.folded.specs.Folded.{other_line, is_other, ClauseOf};

use crate::clause::put_clause;
use formula::clause::clause_at;
use formula::state::has_true;
use rules::ClauseNo;

// Whether clause n holds no forced literal.
// Rules out: true for one that does; the clause before it.
// Required of: count_others, for a clause of the formula.
fn is_other(entries: &[i32], starts: &[u16], n: ClauseNo, values: &[u8]) -> bool
    requires { ClauseOf values.now entries.now starts.now n.0 }
    ensures { result ≡ is_other values.now (clause_at entries.now [] n.0) }
{
    let clause = clause_at(entries, starts, &[], n);
    !has_true(clause, values)
}

// How many clauses hold no forced literal.
// Rules out: those that do; one too few.
// Required of: put_folded, for its formula.
pub fn count_others(entries: &[i32], starts: &[u16], values: &[u8]) -> usize
    requires { Formula (length values.now) entries.now starts.now }
    ensures { result ≡ count (is_other values.now) (clauses entries.now) }
{
    let mut others: usize = 0;
    for i in 0..starts.len() - 1 {
        if is_other(entries, starts, ClauseNo(i as u32 + 1), values) {
            others += 1;
        }
    }
    others
}

// The line of clause n, if it holds no forced literal.
// Rules out: a line for one that does; the line of the clause before.
// Required of: put_others, for a clause of the formula.
fn put_other(
    out: &mut [u8],
    at: usize,
    entries: &[i32],
    starts: &[u16],
    n: ClauseNo,
    values: &[u8],
) -> usize
    requires { ClauseOf values.now entries.now starts.now n.0
        × Room at (other_line values.now n.0 (clause_at entries.now [] n.0)) out.old }
    ensures { Put at (other_line values.now n.0 (clause_at entries.now [] n.0)) out.old
        result out.new }
{
    let clause = clause_at(entries, starts, &[], n);
    if has_true(clause, values) {
        return at;
    }
    put_clause(out, at, clause, values)
}

// A line for each clause that holds no forced literal, in order.
// Rules out: the last clause left out; a clause that holds one.
// Required of: put_folded, whose room is the whole text's.
pub fn put_others(
    out: &mut [u8],
    at: usize,
    entries: &[i32],
    starts: &[u16],
    values: &[u8],
) -> usize
    requires { Formula (length values.now) entries.now starts.now
        × Room at (pieces (other_line values.now) 1 (clauses entries.now)) out.old }
    ensures { Put at (pieces (other_line values.now) 1 (clauses entries.now)) out.old result out.new }
{
    let mut next = at;
    for i in 0..starts.len() - 1 {
        next = put_other(out, next, entries, starts, ClauseNo(i as u32 + 1), values);
    }
    next
}
