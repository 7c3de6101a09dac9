// The clauses that are kept, a line for each.
ghost use Rattle.std.specs.Prelude.{[], ◌<◌, length};
ghost use Rattle.rules.specs.Meaning.{clauses};
ghost use Rattle.texts.specs.WhyPrinted.{line_if, kept_lines};
ghost use Rattle.buffers.specs.Put.{Put, Room};
ghost use Rattle.formula.specs.Starts.{Lookup, clause_at};
ghost use Rattle.why_printed.specs.Reason.{ClausesReady, ReasonReady, ReasonPut};

use crate::line::{put_clause, put_first};
use buffers::count::count_set;
use formula::clause::clause_at;
use formula::starts::find_starts;
use rules::ClauseNo;

// The line of clause n if its mark is not 0.
// Rules out: a line for a clause that went; the line of the clause before.
// Required of: put_clauses, for a clause of the formula.
fn put_if_kept(
    out: &mut [u8],
    at: usize,
    entries: &[i32],
    starts: &[u16],
    n: ClauseNo,
    mark: u8,
) -> usize
    requires { Lookup entries.now starts.now n.0 × Room at (line_if mark n.0 (clause_at entries.now [] n.0)) out.old }
    ensures { Put at (line_if mark n.0 (clause_at entries.now [] n.0)) out.old result out.new }
{
    if mark == 0 {
        return at;
    }
    let number = n.0;
    let clause = clause_at(entries, starts, &[], n);
    put_clause(out, at, ClauseNo(number), clause)
}

// A line for each clause whose mark is not 0.
// Rules out: the last clause left out; clauses numbered from 0.
// Required of: put_reason, with the starts of the entry list.
fn put_clauses(out: &mut [u8], at: usize, entries: &[i32], starts: &[u16], marks: &[u8]) -> usize
    requires { ClausesReady entries.now starts.now marks.now × Room at (kept_lines marks.now (clauses entries.now)) out.old }
    ensures { Put at (kept_lines marks.now (clauses entries.now)) out.old result out.new }
{
    let mut next = at;
    for i in 0..starts.len() - 1 {
        next = put_if_kept(out, next, entries, starts, ClauseNo(i as u32 + 1), marks[i]);
    }
    next
}

// The first line and the clauses that are kept.
// Rules out: a clause not counted that is printed; the starts of another list.
// Required of: answer::put_kept, with room for the starts.
pub fn put_reason(
    out: &mut [u8],
    entries: &[i32],
    report: rules::WhyReport,
    marks: &[u8],
    starts: &mut [u16],
) -> usize
    requires { ReasonReady report entries.now marks.now out.old × (length (clauses entries.now) < length starts.old) }
    ensures { ReasonPut report entries.now marks.now out.old starts.old
        result out.new starts.new }
{
    let count = find_starts(entries, starts);
    let kept = count_set(&marks[..count]);
    let next = put_first(out, 0, report, kept);
    put_clauses(out, next, entries, &starts[..count + 1], marks)
}
