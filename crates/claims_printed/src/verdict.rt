// The line for a text and a file of claims (docs/RULES.md, "The printed verdict"): read, check, put.
ghost use Rattle.std.specs.Prelude.{◌≡◌, length};
ghost use Rattle.rules.specs.Numbers.{max_entries};
ghost use Rattle.rules.specs.declared.ClaimsAnswer.{ClaimsAnswer};
ghost use Rattle.texts.specs.ClaimsPrinted.{claims_line, claims_text_of};
ghost use Rattle.buffers.specs.Put.{Put, Room};
ghost use Rattle.claims_printed.specs.Verdict.{TextPut};

use buffers::put::{put_byte, put_field, put_word};
use lines::line::put_refusal;
use rules::{ClaimsAnswer, ReadAnswer};

// The line of an accepted file.
// Rules out: a number that is not that of its claims; a line without LF.
// Required of: put_verdict, which requires it too.
fn put_accepted(out: &mut [u8], n: u32) -> usize
    requires { Room 0 (claims_line (ClaimsAnswer.Accepted n)) out.old }
    ensures { Put 0 (claims_line (ClaimsAnswer.Accepted n)) out.old result out.new }
{
    let behind_number = put_field(out, 0, b"accepted ", n as usize);
    let behind_word = put_word(out, behind_number, b" claims");
    put_byte(out, behind_word, 10)
}

// The line of an answer.
// Rules out: an accepted file refused; the place of another answer.
// Required of: put_text, whose room is the whole line's.
fn put_verdict(out: &mut [u8], answer: ClaimsAnswer) -> usize
    requires { Room 0 (claims_line answer) out.old }
    ensures { Put 0 (claims_line answer) out.old result out.new }
{
    match answer {
        ClaimsAnswer::Accepted(n) => put_accepted(out, n),
        answer => put_refusal(out, 0, answer),
    }
}

// The line for a text: that of its refusal, or that of the verdict on the file.
// Rules out: a verdict for a refused text; the line of another refusal.
// Required of: print, by length-claims_text_of.
pub fn put_text(out: &mut [u8], text: &[u8], claims: &[u8], entries: &mut [i32]) -> usize
    requires { Room 0 (claims_text_of text.now claims.now) out.old × (length entries.old ≡ max_entries) }
    ensures { TextPut text.now claims.now entries.old out.old result entries.new out.new }
{
    let reading = reader::read(text, entries);
    match reading.answer {
        ReadAnswer::Accepted => {
            let verdict = claims::check_claims(&entries[..reading.entries], reading.vars, claims);
            put_verdict(out, verdict)
        }
        answer => put_refusal(out, 0, answer),
    }
}
