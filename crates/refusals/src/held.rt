// What is refused of the held literals (docs/RULES.md, "Choices already made").
ghost use Rattle.std.specs.Prelude.{◌≡◌};
ghost use Rattle.rules.specs.Lists.{first_of};
ghost use Rattle.rules.specs.Held.{is_no_literal, held_rules};
ghost use Rattle.refusals.specs.Refuse.{found, nth_within};

use formula::lit::var_of;
use rules::{Lit, Refusal};

// Whether a number is no literal of a variable from 1 to V: it is 0, or its variable is above.
// Rules out: 0 taken for a literal; -3 refused for three variables.
pub fn is_no_literal(literal: Lit, vars: u32) -> bool
    ensures { result ≡ is_no_literal vars literal.0 }
{
    let v = var_of(literal);
    v.0 == 0 || vars < v.0
}

// The index of the first held literal that is none, if there is one.
// Rules out: the least i32 passed over; the last bad one for the first.
pub fn first_bad_held(held: &[i32], vars: u32) -> Option<usize>
    ensures { result ≡ nth_within (is_no_literal vars) held.now 0 }
{
    held.iter()
        .position(|&literal| is_no_literal(Lit(literal), vars))
}

// Why held literals are refused, if they are: 15, then 13. Every list and every V is answered.
// Rules out: 257 of them accepted; both signs of a variable refused.
pub fn refuse_held(held: &[i32], vars: u32) -> Result<(), Refusal>
    ensures { result ≡ found (first_of (held_rules held.now vars)) }
{
    if rules::MAX_HELD < held.len() {
        return Err(Refusal::ManyHeld);
    }
    if let Some(bad) = first_bad_held(held, vars) {
        return Err(Refusal::BadLiteral(bad));
    }
    Ok(())
}
