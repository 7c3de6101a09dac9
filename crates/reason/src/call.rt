// The calls (docs/RULES.md, "Why"): each starts from no value.
ghost use Rattle.std.specs.Prelude.{length};
ghost use Rattle.rules.specs.Meaning.{clauses};
ghost use Rattle.rules.specs.Why.{marked};
ghost use Rattle.formula.specs.Starts.{call_clauses};
ghost use Rattle.search.specs.Calls.{CallOver};
ghost use Rattle.reason.specs.Asks.{Asked, MarkedOver, BlankCalled, FalseCalled};

use crate::kept::put_marked;
use formula::lit::negated;
use formula::starts::find_starts;
use rules::Lit;
use search::call::CallEnd;
use search::meter::Meter;
use search::whole::whole_call;

// What a question asks next: its literal, a number of clauses or the index of one, and the meter so far.
#[derive(Clone, Copy)]
pub struct Asking {
    pub literal: Lit,
    pub count: usize,
    pub meter: Meter,
}

// A call from no value.
// Rules out: a call from the values that were there; tries that are forgotten.
// Required of: false_call and ask::ask, on a formula's clauses.
pub fn blank_call<'a>(
    entries: &'a [i32],
    starts: &[u16],
    constraint: &'a [i32],
    total: u32,
    values: &mut [u8],
    meter: Meter,
) -> CallEnd
    requires { CallOver (length values.old) entries.now starts.now constraint.now total }
    ensures { BlankCalled (call_clauses entries.now constraint.now total) (length values.old) meter
        result values.new }
{
    values.fill(0);
    whole_call(entries, starts, constraint, total, values, meter)
}

// A call on the clauses that were put, with the literal false.
// Rules out: the literal true; a call without it.
// Required of: marked_call, for the clauses that it has put.
fn false_call(
    kept: &[i32],
    literal: Lit,
    starts: &mut [u16],
    values: &mut [u8],
    meter: Meter,
) -> CallEnd
    requires { MarkedOver (length values.old) kept.now literal.0 starts.old }
    ensures { FalseCalled (clauses kept.now) (length values.old) literal.0 meter result values.new }
{
    let count = find_starts(kept, starts);
    let falsified = [negated(literal).0];
    let total = count as u32 + 1;
    blank_call(kept, &starts[..count + 1], &falsified, total, values, meter)
}

// A call on the marked clauses, with the literal false.
// Rules out: a call on all clauses; one on those that are not marked.
// Required of: ask::second_call and visit::visit.
pub fn marked_call(
    entries: &[i32],
    asking: Asking,
    kept: &mut [i32],
    starts: &mut [u16],
    marks: &[u8],
    values: &mut [u8],
) -> CallEnd
    requires { Asked (length values.old) entries.now asking.literal.0 kept.old starts.old marks.now }
    ensures { FalseCalled (marked marks.now (clauses entries.now)) (length values.old)
        asking.literal.0 asking.meter
        result values.new }
{
    let n = put_marked(entries, marks, kept);
    false_call(&kept[..n], asking.literal, starts, values, asking.meter)
}
