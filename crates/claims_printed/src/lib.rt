// The verdict on a file of claims, printed (docs/RULES.md, "The printed verdict"), into a buffer that is lent.
#![tactic(auto)]

ghost use Rattle.texts.specs.ClaimsPrinted.{PrintsClaims};

mod verdict;

// Puts the line for a text and a file of claims at the start of a buffer and returns how many bytes it has. None is longer than 64 bytes; in a
// shorter buffer nothing is written, and 0 is returned.
// Rules out: one line for every file; a line in a buffer of 63 bytes.
// Stays beside its kin of the other printing crates: one function of what is put would take that one's contract as its parameter, longer
// than these lines.
#[tactic(auto, using(crate::proofs::VerdictLaws::prints_short))]
pub fn print(text: &[u8], claims: &[u8], out: &mut [u8]) -> usize
    ensures { PrintsClaims text.now claims.now out.old result out.new }
{
    if out.len() < rules::MAX_CLAIMS_LINE {
        return 0;
    }
    let mut entries = [0i32; rules::MAX_ENTRIES];
    verdict::put_text(out, text, claims, &mut entries)
}
