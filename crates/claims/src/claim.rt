// The claims of a file, docs/RULES.md, "Claims": each a literal and a tree under its negation; nothing stands behind the last one.
ghost use Rattle.std.specs.Prelude.{length};
ghost use Rattle.rules.specs.Meaning.{clauses};
ghost use Rattle.claims.specs.Steps.{Unset, ClaimChecked, ClaimsChecked, EndChecked};

use crate::taken::{Due, taken};
use crate::tree::check_tree;
use formula::value::byte_of;
use reader::next::next_number;
use rules::ClaimsAnswer;

// One claim, where no variable is set: where its tree ends, or the answer.
// Rules out: a tree checked under the claim itself; 0 as a claim.
// Required of: check_all, which requires it too.
fn check_claim(
    entries: &[i32],
    starts: &[u16],
    text: &[u8],
    at: usize,
    values: &mut [u8],
) -> Result<usize, ClaimsAnswer>
    requires { Unset entries.now starts.now values.old }
    ensures { ClaimChecked (clauses entries.now) text.now at values.old result values.new }
{
    let claim = taken(text, at, Due::Claim(values.len() as u32))?;
    let i = claim.entry.number as usize - 1;
    values[i] = byte_of(claim.entry.minus);
    let end = check_tree(entries, starts, text, claim.to, values);
    values[i] = 0;
    end
}

// Where the last of n claims has been read: the text has to end.
// Rules out: a number behind the last claim accepted; 17 for a malformed token there.
fn end_at(text: &[u8], at: usize, n: u32) -> ClaimsAnswer
    ensures { EndChecked text.now at n result }
{
    match next_number(text, at) {
        Ok(Some(spot)) => ClaimsAnswer::Rejected(spot.from),
        Ok(None) => ClaimsAnswer::Accepted(n),
        Err(from) => ClaimsAnswer::BadToken(from),
    }
}

// All of n claims, where no variable is set.
// Rules out: the last claim not checked; a count of claims that were not there.
// Required of: check_file, which clears the values.
pub fn check_all(
    entries: &[i32],
    starts: &[u16],
    text: &[u8],
    at: usize,
    n: u32,
    values: &mut [u8],
) -> ClaimsAnswer
    requires { Unset entries.now starts.now values.old }
    ensures { ClaimsChecked (length values.old) (clauses entries.now) text.now at n result }
{
    let mut next = at;
    for _ in 0..n {
        match check_claim(entries, starts, text, next, values) {
            Ok(to) => next = to,
            Err(answer) => return answer,
        }
    }
    end_at(text, next, n)
}
