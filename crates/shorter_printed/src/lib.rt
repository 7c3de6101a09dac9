// The shorter file of a text (docs/RULES.md, "The shorter file"), put into a buffer that is lent.
#![tactic(auto)]

ghost use Rattle.std.specs.Prelude.{◌≡◌, ◌≤◌, length};
ghost use Rattle.rules.specs.Numbers.{max_text, max_entries};
ghost use Rattle.texts.specs.ShorterPrinted.{PrintsShorter};
ghost use Rattle.shorter_printed.specs.Printed.{TextPut};

use lines::line::put_refusal;
use rules::{ReadAnswer, TABLE_BUDGET, TABLE_CHUNK};

// The shorter file of a text, or the line of its refusal.
// Rules out: a file for a refused text; the line of another refusal.
// Required of: print, in a buffer that is long enough.
fn put_text(out: &mut [u8], text: &[u8], entries: &mut [i32]) -> usize
    requires { (max_text ≤ length out.old) × (length entries.old ≡ max_entries) }
    ensures { TextPut text.now entries.old out.old result entries.new out.new }
{
    let reading = reader::read(text, entries);
    match reading.answer {
        ReadAnswer::Accepted => {
            let list = &entries[..reading.entries];
            let report = shorter::shorter(list, reading.vars, TABLE_BUDGET, TABLE_CHUNK, out);
            report.length
        }
        answer => put_refusal(out, 0, answer),
    }
}

// Puts the shorter file of a text at the start of a buffer and returns how many bytes it has. None is longer than 32,768 bytes; in a
// shorter buffer nothing is written, and 0 is returned.
// Rules out: a run under another budget; a file in a buffer of 32,767 bytes.
// Stays beside its kin of the other printing crates: one function of what is put would take that one's contract as its parameter, longer
// than these lines.
#[tactic(auto, using(crate::proofs::TextLaws::prints_short))]
pub fn print(text: &[u8], out: &mut [u8]) -> usize
    ensures { PrintsShorter text.now out.old result out.new }
{
    if out.len() < rules::MAX_TEXT {
        return 0;
    }
    let mut entries = [0i32; rules::MAX_ENTRIES];
    put_text(out, text, &mut entries)
}
