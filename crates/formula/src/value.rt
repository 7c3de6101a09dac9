// Values, docs/RULES.md, "Meaning": a byte for each variable, 0 unset, 1 false, 2 true; and the value of a literal under them.
ghost use Rattle.std.specs.Prelude.{◌≡◌, ◌+◌, ◌≤◌, length};
ghost use Rattle.rules.specs.Meaning.{LitUpTo, is_true, is_unset};
ghost use Rattle.formula.specs.Literals.{byte_of};

use crate::lit::{sign, var_of};
use rules::{Lit, Var};

// The index of a variable's byte: its number less one.
// Rules out: 3 for variable 3; 0 for every variable.
// Required of: whoever has a literal or a variable of 1 to V: is_unset, is_true, board::literal::make_true, steps::flip::flip_test.
pub fn index_of(v: Var) -> usize
    requires { 1 ≤ v.0 }
    ensures { result + 1 ≡ v.0 }
{
    v.0 as usize - 1
}

// The byte of a value.
// Rules out: 0 for false; 1 for true.
pub fn byte_of(value: bool) -> u8
    ensures { result ≡ byte_of value }
{
    if value { 2 } else { 1 }
}

// Whether a literal of one of the variables is unset.
// Rules out: true for a false literal; false for -1 where variable 1 has no value.
// Required of: first_unset and has_other_unset, by the literals of their clause.
pub fn is_unset(l: Lit, values: &[u8]) -> bool
    requires { LitUpTo (length values.now) l.0 }
    ensures { result ≡ is_unset values.now l.0 }
{
    let at = index_of(var_of(l));
    values[at] == 0
}

// Whether it is true.
// Rules out: true for -1 where variable 1 is true; true for an unset literal.
// Required of: has_true, by the literals of its clause.
pub fn is_true(l: Lit, values: &[u8]) -> bool
    requires { LitUpTo (length values.now) l.0 }
    ensures { result ≡ is_true values.now l.0 }
{
    let at = index_of(var_of(l));
    values[at] == byte_of(sign(l))
}
