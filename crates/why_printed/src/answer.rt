// The answer for a text and a literal (docs/RULES.md, "The printed reason"): read, ask, put.
ghost use Rattle.std.specs.Prelude.{◌≡◌, ◌++◌, ◌≤◌, length};
ghost use Rattle.rules.specs.Numbers.{max_vars, max_entries};
ghost use Rattle.rules.specs.Meaning.{clauses};
ghost use Rattle.texts.specs.ModelLine.{model_line};
ghost use Rattle.rules.specs.Why.{why_given};
ghost use Rattle.texts.specs.WhyPrinted.{why_line, why_text_of_report, why_budget, why_text_of_list, why_text_of};
ghost use Rattle.buffers.specs.Put.{Put, Room};
ghost use Rattle.why_printed.specs.Reason.{reason_text, ReasonReady, AnswerReady, ListReady, Sized, AskedPut, TextPut};

use crate::clauses::put_reason;
use crate::line::put_first;
use lines::line::put_refusal;
use lines::model::put_model;
use rules::{Lit, ReadAnswer, WHY_BUDGET, WhyAnswer, WhyReport};

// After 0: the clauses that are kept, with room for the starts of all.
// Rules out: all clauses; none of them.
// Required of: put_answer, after 0.
fn put_kept(out: &mut [u8], entries: &[i32], report: WhyReport, marks: &[u8]) -> usize
    requires { ReasonReady report entries.now marks.now out.old }
    ensures { Put 0 (reason_text report entries.now marks.now) out.old result out.new }
{
    let mut starts = [0u16; rules::MAX_CLAUSES as usize + 1];
    put_reason(out, entries, report, marks, &mut starts)
}

// After 22: the model that has the literal false.
// Rules out: the first line alone; a model without the first line.
// Required of: put_answer, after 22.
fn put_false(out: &mut [u8], report: WhyReport, values: &[u8]) -> usize
    requires { Room 0 (why_line report 0 ++ model_line values.now) out.old × (length values.now ≤ max_vars) }
    ensures { Put 0 (why_line report 0 ++ model_line values.now) out.old result out.new }
{
    let next = put_first(out, 0, report, 0);
    put_model(out, next, values)
}

// What is printed for an answer: the clauses after 0, the model after 22, the refusal alone if it is one.
// Rules out: clauses after 21; the line of an answer where it is refused.
// Required of: put_asked, for the answer with its marks and values.
fn put_answer(
    out: &mut [u8],
    entries: &[i32],
    report: WhyReport,
    marks: &[u8],
    values: &[u8],
) -> usize
    requires { AnswerReady report entries.now marks.now values.now out.old }
    ensures { Put 0 (why_text_of_report report (clauses entries.now) marks.now values.now)
        out.old result out.new }
{
    match report.answer {
        WhyAnswer::Kept => put_kept(out, entries, report, marks),
        WhyAnswer::NoModel | WhyAnswer::Stopped => put_first(out, 0, report, 0),
        WhyAnswer::NotForced => put_false(out, report, values),
        WhyAnswer::Refused(refusal) => put_refusal(out, 0, refusal),
    }
}

// The answer for an entry list with buffers of just the size and budget 1,000,000.
// Rules out: the answer under another budget; that for another literal.
// Required of: put_list, with buffers of just the size.
fn put_asked(
    out: &mut [u8],
    entries: &[i32],
    vars: u32,
    literal: Lit,
    marks: &mut [u8],
    values: &mut [u8],
) -> usize
    requires { ListReady vars entries.now literal.0 out.old × Sized vars marks.old values.old }
    ensures { AskedPut (why_given entries.now vars literal.0 why_budget marks.old values.old)
        out.old result marks.new values.new out.new }
{
    let report = reason::why(entries, vars, literal, WHY_BUDGET, marks, values);
    put_answer(out, entries, report, marks, values)
}

// The answer for an entry list: the buffers are made here, for up to 1,024 clauses and 256 variables.
// Rules out: the answer for another list; a byte behind the answer.
// Required of: put_text, for the list of an accepted text.
fn put_list(out: &mut [u8], entries: &[i32], vars: u32, literal: Lit) -> usize
    requires { ListReady vars entries.now literal.0 out.old }
    ensures { Put 0 (why_text_of_list vars entries.now literal.0) out.old result out.new }
{
    let n = vars as usize;
    let mut marks = [0u8; rules::MAX_MARKS];
    let mut values = [0u8; rules::MAX_VARS as usize];
    put_asked(out, entries, vars, literal, &mut marks, &mut values[..n])
}

// The answer for a text: the line of its refusal, or the answer for its entries.
// Rules out: an answer for a refused text; the line of another refusal.
// Required of: print, by length-why_text_of.
pub fn put_text(out: &mut [u8], text: &[u8], literal: Lit, entries: &mut [i32]) -> usize
    requires { Room 0 (why_text_of text.now literal.0) out.old × (length entries.old ≡ max_entries) }
    ensures { TextPut text.now literal.0 entries.old out.old result entries.new out.new }
{
    let reading = reader::read(text, entries);
    match reading.answer {
        ReadAnswer::Accepted => put_list(out, &entries[..reading.entries], reading.vars, literal),
        answer => put_refusal(out, 0, answer),
    }
}
