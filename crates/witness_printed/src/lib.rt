// A witness to see, printed (docs/RULES.md, "The printed witness"), into a buffer that is lent.
#![tactic(auto)]

ghost use Rattle.texts.specs.WitnessPrinted.{PrintsWitness};

mod answer;
mod pair;

// Puts the first model and the witness of a variable, a line each, at the start of a buffer and returns how many bytes they have. They are
// never longer than 4,096 bytes; in a shorter buffer nothing is written, and 0 is returned.
// Rules out: one pair for every variable; a pair in a buffer of 4,095 bytes.
// Stays beside its kin of the other printing crates: one function of what is put would take that one's contract as its parameter, longer
// than these lines.
#[tactic(auto, using(crate::proofs::AnswerLaws::prints_short))]
pub fn print(text: &[u8], variable: u32, out: &mut [u8]) -> usize
    ensures { PrintsWitness text.now variable out.old result out.new }
{
    if out.len() < rules::MAX_WITNESS {
        return 0;
    }
    let mut entries = [0i32; rules::MAX_ENTRIES];
    answer::put_text(out, text, variable, &mut entries)
}
