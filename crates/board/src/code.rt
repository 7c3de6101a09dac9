// The number of a literal, by which the lists of who holds it are cut.
ghost use Rattle.std.specs.Prelude.{◌≡◌, ◌<◌};
ghost use Rattle.rules.specs.Meaning.{LitUpTo};
ghost use Rattle.rules.specs.Numbers.{max_vars};
ghost use Rattle.board.specs.Holders.{code_of, other_code};

use formula::lit::{sign, var_of};
use formula::value::index_of;
use rules::Lit;

// 0 for literal 1, 1 for -1, 2 for 2 and so on.
// Rules out: one number for 1 and -1; 2 for literal 1.
// Required of: chain::link_all, literal::set_literal, constraint::mark and flip::first_held, for literals of 1 to V.
pub fn code_of(l: Lit) -> usize
    requires { LitUpTo max_vars l.0 }
    ensures { result ≡ code_of l.0 }
{
    let at = index_of(var_of(l));
    if sign(l) { 2 * at } else { 2 * at + 1 }
}

// The number of the negation.
// Rules out: 1 for 2; the number itself.
// Required of: literal::set_literal and literal::unset_last, for a literal's number.
pub fn other_code(k: usize) -> usize
    requires { k < 65535 }
    ensures { result ≡ other_code k }
{
    if k % 2 == 0 { k + 1 } else { k - 1 }
}
