// The crossings of a literal, and nothing else: its sign, its negation, its variable. The least i32 is no exception: it has a sign
// and a variable as any other literal. docs/RULES.md, "A variable number and a literal are two things".
ghost use Rattle.std.specs.Prelude.{◌≡◌};
ghost use Rattle.rules.specs.Meaning.{var_of, negated};
ghost use Rattle.formula.specs.Literals.{is_positive, HasNegation};

use rules::{Lit, Var};

// Whether a literal is positive: the value of its variable that makes it true.
// Rules out: true for -3; false for 3.
pub fn sign(l: Lit) -> bool
    ensures { result ≡ is_positive l.0 }
{
    0 <= l.0
}

// The literal of the same variable with the other sign.
// Rules out: -3 for -3; 0 for 3.
// Required of: steps::constraint::false_literal, whose variable is at most 256; reason::call::false_call, after 13.
pub fn negated(l: Lit) -> Lit
    requires { HasNegation l.0 }
    ensures { result.0 ≡ negated l.0 }
{
    Lit(0 - l.0)
}

// The variable of a literal. -(x + 1) + 1 is computed in place of -x, which the least i32 does not have.
// Rules out: 3 for -4; 0 for the least i32.
pub fn var_of(l: Lit) -> Var
    ensures { result.0 ≡ var_of l.0 }
{
    let x = l.0;
    if x < 0 {
        Var((0 - (x + 1)) as u32 + 1)
    } else {
        Var(x as u32)
    }
}
