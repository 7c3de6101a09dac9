// The first two calls, and what follows from them (docs/RULES.md, "Why").
ghost use Rattle.std.specs.Prelude.{◌≡◌, length, replicate};
ghost use Rattle.rules.specs.Meaning.{clauses};
ghost use Rattle.rules.specs.Why.{why};
ghost use Rattle.reason.specs.Asks.{Asks, Asked, EndsAs, question, from_second};

use crate::call::{Asking, blank_call, marked_call};
use crate::marks::mark_first;
use crate::visit::visit_all;
use buffers::bits::write_bits;
use formula::starts::find_starts;
use rules::{Lit, Outcome, WhyAnswer, WhyReport};
use search::meter::Meter;

// The second call, on all clauses with the literal false: a model is written, otherwise the clauses are visited.
// Rules out: clauses visited where the literal is not forced; marks that stay beside a model.
// Required of: ask, where the first call has found a model.
fn second_call(
    entries: &[i32],
    asking: Asking,
    kept: &mut [i32],
    starts: &mut [u16],
    marks: &mut [u8],
    values: &mut [u8],
) -> WhyReport
    requires { Asked (length values.old) entries.now asking.literal.0 kept.old starts.old marks.old
        × (asking.count ≡ length (clauses entries.now)) × (marks.old ≡ replicate (length marks.old) 0) }
    ensures { EndsAs (from_second (question entries.now (length values.old) asking.meter.budget asking.literal.0)
        asking.meter.spent) result marks.new values.new }
{
    let literal = asking.literal;
    let count = asking.count;
    mark_first(marks, count);
    let end = marked_call(entries, asking, kept, starts, marks, values);
    let outcome = end.outcome;
    let after = end.meter;
    match outcome {
        Outcome::Model => {
            marks.fill(0);
            write_bits(values);
            WhyReport {
                answer: WhyAnswer::NotForced,
                calls: 2,
                tries: after.spent,
            }
        }
        Outcome::NoModel => {
            let next = Asking {
                literal: literal,
                count: count,
                meter: after,
            };
            visit_all(entries, next, kept, starts, marks, values)
        }
        Outcome::Stopped => {
            marks.fill(0);
            WhyReport {
                answer: WhyAnswer::Stopped,
                calls: 2,
                tries: after.spent,
            }
        }
    }
}

// The first call, on the formula alone: without a model that is the answer, otherwise the second call follows.
// Rules out: a literal called forced where there is no model; marks of an older question.
// Required of: with_room, whose lists no rule refuses.
fn ask(
    entries: &[i32],
    literal: Lit,
    kept: &mut [i32],
    starts: &mut [u16],
    marks: &mut [u8],
    values: &mut [u8],
    budget: u32,
) -> WhyReport
    requires { Asked (length values.old) entries.now literal.0 kept.old starts.old marks.old }
    ensures { EndsAs (why (question entries.now (length values.old) budget literal.0))
        result marks.new values.new }
{
    marks.fill(0);
    let count = find_starts(entries, starts);
    let end = blank_call(
        entries,
        &starts[..count + 1],
        &entries[..0],
        count as u32,
        values,
        Meter {
            budget: budget,
            spent: 0,
        },
    );
    let outcome = end.outcome;
    let after = end.meter;
    match outcome {
        Outcome::Model => {
            let next = Asking {
                literal: literal,
                count: count,
                meter: after,
            };
            second_call(entries, next, kept, starts, marks, values)
        }
        Outcome::NoModel => WhyReport {
            answer: WhyAnswer::NoModel,
            calls: 1,
            tries: after.spent,
        },
        Outcome::Stopped => WhyReport {
            answer: WhyAnswer::Stopped,
            calls: 1,
            tries: after.spent,
        },
    }
}

// All calls, with room for the clauses that are put and for their starts.
// Rules out: a list cut short; a clause without its start.
// Required of: why, after 10, 1, 11, 12 and 13.
pub fn with_room(
    entries: &[i32],
    literal: Lit,
    marks: &mut [u8],
    values: &mut [u8],
    budget: u32,
) -> WhyReport
    requires { Asks (length values.old) entries.now literal.0 marks.old }
    ensures { EndsAs (why (question entries.now (length values.old) budget literal.0))
        result marks.new values.new }
{
    let mut kept = [0i32; rules::MAX_ENTRIES];
    let mut starts = [0u16; rules::MAX_CLAUSES as usize + 1];
    ask(
        entries,
        literal,
        &mut kept,
        &mut starts,
        marks,
        values,
        budget,
    )
}
