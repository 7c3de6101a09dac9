// One step over a file of claims, docs/RULES.md, "Claims": the next number where something is due, or the answer where there is none. An
// answer that ends the judgement is an Err in each step.
ghost use Rattle.claims.specs.Steps.{NumberDue};

use reader::next::{Spot, next_number};
use rules::ClaimsAnswer;

// The next number, where one is due: 5 for a malformed token, and 17 at the text length where the text ends.
// Rules out: a missing number rejected at the place of the last one; 17 for a malformed token.
pub fn number_at(text: &[u8], at: usize) -> Result<Spot, ClaimsAnswer>
    ensures { NumberDue text.now at result }
{
    match next_number(text, at) {
        Ok(Some(spot)) => Ok(spot),
        Ok(None) => Err(ClaimsAnswer::Rejected(text.len())),
        Err(from) => Err(ClaimsAnswer::BadToken(from)),
    }
}
