// The clauses, visited from the last to the first (docs/RULES.md, "Why").
ghost use Rattle.std.specs.Prelude.{◌≤◌, ◌<◌, length};
ghost use Rattle.rules.specs.Meaning.{clauses};
ghost use Rattle.rules.specs.Why.{visits};
ghost use Rattle.reason.specs.Asks.{Asked, EndsAs, MarkedBelow, VisitDone, question};

use crate::call::{Asking, marked_call};
use rules::{Outcome, WhyAnswer, WhyReport};
use search::call::CallEnd;

// Visits the clause at index `count`: a call on the others that are marked. It goes if that finds no model, and is kept if it finds one.
// Rules out: a clause left out though a model is found without it; a call on the clause itself.
// Required of: visit_all, by its invariant.
fn visit(
    entries: &[i32],
    asking: Asking,
    kept: &mut [i32],
    starts: &mut [u16],
    marks: &mut [u8],
    values: &mut [u8],
) -> CallEnd
    requires { Asked (length values.old) entries.now asking.literal.0 kept.old starts.old marks.old
        × (asking.count < length marks.old) }
    ensures { VisitDone entries.now (length values.old) asking.literal.0 marks.old asking.count
        asking.meter result marks.new values.new }
{
    let n = asking.count;
    marks[n] = 0;
    let end = marked_call(entries, asking, kept, starts, marks, values);
    let outcome = end.outcome;
    if let Outcome::Model = outcome {
        marks[n] = 1;
        return end;
    }
    end
}

// Visits the first `count` clauses, from the last to the first. Where a call is stopped nothing is marked.
// Rules out: clauses visited from first to last; marks that stay after a stop.
// Required of: ask::second_call, with all clauses marked.
pub fn visit_all(
    entries: &[i32],
    asking: Asking,
    kept: &mut [i32],
    starts: &mut [u16],
    marks: &mut [u8],
    values: &mut [u8],
) -> WhyReport
    requires { Asked (length values.old) entries.now asking.literal.0 kept.old starts.old marks.old
        × (asking.count ≤ length (clauses entries.now)) × MarkedBelow marks.old asking.count }
    ensures { EndsAs (visits asking.count (question entries.now (length values.old) asking.meter.budget
        asking.literal.0) marks.old 2 asking.meter.spent) result marks.new values.new }
{
    let literal = asking.literal;
    let mut calls: u32 = 2;
    let mut left = asking.meter;
    for n in (0..asking.count).rev() {
        let next = Asking {
            literal: literal,
            count: n,
            meter: left,
        };
        let end = visit(entries, next, kept, starts, marks, values);
        calls += 1;
        left = end.meter;
        let outcome = end.outcome;
        if let Outcome::Stopped = outcome {
            marks.fill(0);
            return WhyReport {
                answer: WhyAnswer::Stopped,
                calls: calls,
                tries: left.spent,
            };
        }
    }
    values.fill(0);
    WhyReport {
        answer: WhyAnswer::Kept,
        calls: calls,
        tries: left.spent,
    }
}
