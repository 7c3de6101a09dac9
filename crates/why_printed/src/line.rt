// The lines of an answer (docs/RULES.md, "The printed reason"), each ended by LF.
ghost use Rattle.rules.specs.Lists.{pieces};
ghost use Rattle.texts.specs.WhyPrinted.{why_line, spaced_literal, clause_line};
ghost use Rattle.buffers.specs.Put.{Put, Room};

use buffers::put::{put_byte, put_field, put_signed};
use formula::lit::{sign, var_of};
use lines::line::put_counts;
use rules::numbers::Answer;
use rules::{ClauseNo, Lit};

// The first line: the returned numbers, and how many clauses are kept.
// Rules out: the place beside the number; a line without LF.
// Required of: clauses::put_reason, answer::put_false and answer::put_answer, whose room is the whole answer's.
pub fn put_first(out: &mut [u8], at: usize, report: rules::WhyReport, kept: usize) -> usize
    requires { Room at (why_line report kept) out.old }
    ensures { Put at (why_line report kept) out.old result out.new }
{
    let answer = report.answer;
    let number = answer.number();
    let behind_counts = put_counts(out, at, number, report.calls, report.tries);
    let behind_kept = put_field(out, behind_counts, b" kept ", kept);
    put_byte(out, behind_kept, 10)
}

// A literal behind a space.
// Rules out: the variable for the literal; two literals in one word.
// Required of: put_literals, whose room is that of all literals.
fn put_spaced(out: &mut [u8], at: usize, l: Lit) -> usize
    requires { Room at (spaced_literal 1 l.0) out.old }
    ensures { Put at (spaced_literal 1 l.0) out.old result out.new }
{
    let positive = sign(l);
    let v = var_of(l);
    let next = put_byte(out, at, 32);
    put_signed(out, next, !positive, v.0 as usize)
}

// The literals of a clause as they stand, a space before each.
// Rules out: a repeated literal left out; literals in another order.
// Required of: put_clause, whose room is the whole line's.
fn put_literals(out: &mut [u8], at: usize, clause: &[i32]) -> usize
    requires { Room at (pieces spaced_literal 1 clause.now) out.old }
    ensures { Put at (pieces spaced_literal 1 clause.now) out.old result out.new }
{
    let mut next = at;
    for &entry in clause {
        next = put_spaced(out, next, Lit(entry));
    }
    next
}

// The line of a clause.
// Rules out: the number less one; a line without LF.
// Required of: clauses::put_if_kept, whose room is that of all lines.
pub fn put_clause(out: &mut [u8], at: usize, n: ClauseNo, clause: &[i32]) -> usize
    requires { Room at (clause_line n.0 clause.now) out.old }
    ensures { Put at (clause_line n.0 clause.now) out.old result out.new }
{
    let behind_number = put_field(out, at, b"clause ", n.0 as usize);
    let behind_colon = put_byte(out, behind_number, 58);
    let behind_literals = put_literals(out, behind_colon, clause);
    put_byte(out, behind_literals, 10)
}
