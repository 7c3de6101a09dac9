// Why a literal is forced, for C and Rust: thin over `reason`, in the numbers of docs/RULES.md, "Why".
ghost use Rattle.std.specs.Prelude.{◌≡◌, ◌≤◌};
ghost use Rattle.rules.specs.Numbers.{max_entries};
ghost use Rattle.rules.specs.Why.{why_place, why_given};
ghost use Rattle.igbezolum.specs.WhyLinked.{why_numbers, ExplainsIn};

use rules::Lit;
use rules::numbers::Answer;

// What is returned, in numbers.
#[repr(C)]
#[derive(Clone, Copy)]
pub struct IgbWhyReport {
    pub answer: u32,
    pub place: u32,
    pub calls: u32,
    pub tries: u32,
}

fn why_numbers(report: rules::WhyReport) -> IgbWhyReport
    requires { why_place report.answer ≤ max_entries }
    ensures { result ≡ why_numbers report }
{
    let answer = report.answer;
    IgbWhyReport {
        answer: answer.number(),
        place: answer.place() as u32,
        calls: report.calls,
        tries: report.tries,
    }
}

// Which clauses of an entry list alone force a literal, into the marks that are lent, or a model that has it false, into the values.
// Rules out: calls and tries exchanged; the answer for the literal's negation.
pub fn igb_why(
    entries: &[i32],
    vars: u32,
    literal: i32,
    budget: u32,
    marks: &mut [u8],
    values: &mut [u8],
) -> IgbWhyReport
    ensures { ExplainsIn (why_given entries.now vars literal budget marks.old values.old)
        result marks.new values.new }
{
    let report = reason::why(entries, vars, Lit(literal), budget, marks, values);
    why_numbers(report)
}
