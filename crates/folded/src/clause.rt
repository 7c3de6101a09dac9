// The line of a clause that holds no forced literal: what stays of it.
ghost use Rattle.std.specs.Prelude.{◌≡◌, [], ◌∷◌, ◌++◌, length};
ghost use Rattle.rules.specs.Lists.{any, eqz, pieces};
ghost use Rattle.rules.specs.Meaning.{LitUpTo};
ghost use Rattle.texts.specs.Plain.{plain_entry};
ghost use Rattle.formula.specs.Clauses.{ClauseUpTo};
ghost use Rattle.buffers.specs.Put.{Put, Room};
ghost use Rattle.folded.specs.Folded.{stays, literal_if, literal_piece, clause_text};

use buffers::put::{put_byte, put_signed, put_word};
use formula::lit::{sign, var_of};
use formula::value::is_unset;
use rules::Lit;

// Whether a literal stands in a clause, or in the front of one.
// Rules out: true for -3 in "3 0"; false where only the last literal is it.
fn has_literal(clause: &[i32], l: Lit) -> bool
    ensures { result ≡ any (eqz l.0) clause.now }
{
    clause.contains(&l.0)
}

// Whether a literal stays: its variable is not forced, and it does not stand before.
// Rules out: true for the negation of a forced literal; true for a later repeat.
// Required of: put_if_stays, which requires it too.
fn is_staying(before: &[i32], l: Lit, values: &[u8]) -> bool
    requires { LitUpTo (length values.now) l.0 }
    ensures { result ≡ stays values.now before.now l.0 }
{
    if !is_unset(l, values) {
        return false;
    }
    !has_literal(before, l)
}

// A literal and a space.
// Rules out: the variable for the literal; two literals in one word.
// Required of: put_if_stays, whose room is the literal's if it stays.
fn put_literal(out: &mut [u8], at: usize, l: Lit) -> usize
    requires { Room at (plain_entry l.0 ++ 32 ∷ []) out.old }
    ensures { Put at (plain_entry l.0 ++ 32 ∷ []) out.old result out.new }
{
    let positive = sign(l);
    let v = var_of(l);
    let next = put_signed(out, at, !positive, v.0 as usize);
    put_byte(out, next, 32)
}

// The same if it stays, and nothing if not.
// Rules out: a literal that goes; nothing for one that stays.
// Required of: put_literals, for a literal of its clause.
fn put_if_stays(out: &mut [u8], at: usize, before: &[i32], l: Lit, values: &[u8]) -> usize
    requires { LitUpTo (length values.now) l.0 × Room at (literal_if (stays values.now before.now l.0) l.0) out.old }
    ensures { Put at (literal_if (stays values.now before.now l.0) l.0) out.old result out.new }
{
    if is_staying(before, l, values) {
        return put_literal(out, at, l);
    }
    at
}

// The literals that stay, in order.
// Rules out: the last literal left out; literals in another order.
// Required of: put_clause, whose room is the whole line's.
fn put_literals(out: &mut [u8], at: usize, clause: &[i32], values: &[u8]) -> usize
    requires { ClauseUpTo (length values.now) clause.now × Room at (pieces (literal_piece values.now clause.now) 1 clause.now) out.old }
    ensures { Put at (pieces (literal_piece values.now clause.now) 1 clause.now) out.old
        result out.new }
{
    let mut next = at;
    for (i, &entry) in clause.iter().enumerate() {
        next = put_if_stays(out, next, &clause[..i], Lit(entry), values);
    }
    next
}

// The line of a clause: the literals that stay, and 0.
// Rules out: a line without its 0; one without LF.
// Required of: others::put_other, for a clause of the formula.
pub fn put_clause(out: &mut [u8], at: usize, clause: &[i32], values: &[u8]) -> usize
    requires { ClauseUpTo (length values.now) clause.now × Room at (clause_text values.now clause.now) out.old }
    ensures { Put at (clause_text values.now clause.now) out.old result out.new }
{
    let next = put_literals(out, at, clause, values);
    put_word(out, next, b"0\n")
}
