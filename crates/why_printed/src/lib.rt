// Why a literal is forced, printed (docs/RULES.md, "The printed reason"), into a buffer that is lent.
#![tactic(auto)]

ghost use Rattle.texts.specs.WhyPrinted.{PrintsWhy};

mod answer;
mod clauses;
mod line;

// Puts the answer for a text and a literal at the start of a buffer and returns how many bytes it has. None is longer than 32,768
// bytes; in a shorter buffer nothing is written, and 0 is returned.
// Rules out: one answer for every literal; an answer in a buffer of 32,767 bytes.
// Stays beside its kin of the other printing crates: one function of what is put would take that one's contract as its parameter, longer
// than these lines.
#[tactic(auto, using(crate::proofs::AnswerLaws::prints_short))]
pub fn print(text: &[u8], literal: rules::Lit, out: &mut [u8]) -> usize
    ensures { PrintsWhy text.now literal.0 out.old result out.new }
{
    if out.len() < rules::MAX_WHY {
        return 0;
    }
    let mut entries = [0i32; rules::MAX_ENTRIES];
    answer::put_text(out, text, literal, &mut entries)
}
