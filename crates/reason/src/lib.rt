// Why a literal is forced (docs/RULES.md, "Why"): a set of clauses that alone forces it, none of which can go.
#![tactic(auto)]

ghost use Rattle.rules.specs.Why.{why_given, Explains};

mod ask;
mod call;
mod kept;
mod marks;
mod refuse;
mod visit;

// Marks clauses that alone force a literal, none of which can go; or writes a model that has it false. Every list, every literal and
// every pair of buffers is answered; what is refused writes nothing.
// Rules out: all clauses marked; a clause marked that can go.
pub fn why(
    entries: &[i32],
    vars: u32,
    literal: rules::Lit,
    budget: u32,
    marks: &mut [u8],
    values: &mut [u8],
) -> rules::WhyReport
    ensures { Explains (why_given entries.now vars literal.0 budget marks.old values.old)
        result marks.new values.new }
{
    if let Err(refusal) = refuse::refuse(entries, vars, literal, marks.len(), values.len()) {
        return rules::WhyReport {
            answer: rules::WhyAnswer::Refused(refusal),
            calls: 0,
            tries: 0,
        };
    }
    let n = vars as usize;
    ask::with_room(
        entries,
        literal,
        &mut marks[..rules::MAX_MARKS],
        &mut values[..n],
        budget,
    )
}
