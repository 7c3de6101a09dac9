// A number where one is due, docs/RULES.md, "Claims": it is taken, or the first at fault.
ghost use Rattle.std.specs.Prelude.{◌≡◌};
ghost use Rattle.reader.specs.Words.{value_of};
ghost use Rattle.claims.specs.Steps.{SignFits, is_faulty, Taken};

use crate::step::number_at;
use reader::next::Spot;
use reader::token::Entry;
use rules::ClaimsAnswer;

// What is due: the model's count, which is V; a literal of a variable; the number of claims; a claim, whose variable is at most V.
// Stays an enum and no closure: `Taken` says by it what is at fault, and a closure would have to promise the same.
#[derive(Clone, Copy)]
pub enum Due {
    Count(u32),
    Literal(u32),
    Claims,
    Claim(u32),
}

// Whether a number is at fault.
// Rules out: false for a literal of another variable; true for a count of 0 claims.
// Required of: taken, whose number is a token's.
fn is_faulty(due: Due, e: Entry) -> bool
    requires { SignFits e }
    ensures { result ≡ is_faulty due (value_of e) }
{
    match due {
        Due::Count(vars) => {
            if e.minus {
                return true;
            }
            e.number != vars
        }
        Due::Literal(v) => e.number != v,
        Due::Claims => e.minus,
        Due::Claim(vars) => {
            if e.number == 0 {
                return true;
            }
            vars < e.number
        }
    }
}

// The number that is due, if it is not at fault; or the answer.
// Rules out: the place of the number before it for one at fault; 17 for a malformed token.
pub fn taken(text: &[u8], at: usize, due: Due) -> Result<Spot, ClaimsAnswer>
    ensures { Taken text.now at due result }
{
    let spot = number_at(text, at)?;
    if is_faulty(due, spot.entry) {
        return Err(ClaimsAnswer::Rejected(spot.from));
    }
    Ok(spot)
}
