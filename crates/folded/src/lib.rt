// The formula with forced literals folded in, as text (docs/RULES.md, "The shorter file"), put into a buffer that is lent. The forced
// literals are lent as values, a byte a variable: 0 not forced, 1 forced false, 2 forced true.
#![tactic(auto)]

ghost use Rattle.std.specs.Prelude.{[], ◌∷◌};
ghost use Rattle.rules.specs.Meaning.{clauses};
ghost use Rattle.texts.specs.Plain.{plain};
ghost use Rattle.buffers.specs.Put.{Put, Room};
ghost use Rattle.folded.specs.Folded.{header_text, folded_text, FoldedReady};

use buffers::put::{put_byte, put_field, put_word};

mod clause;
mod others;
mod units;

// The header line.
// Rules out: variables and clauses exchanged; a line without LF.
// Required of: put_folded and put_empty, whose room is the whole text's.
fn put_header(out: &mut [u8], vars: usize, clauses: usize) -> usize
    requires { Room 0 (header_text vars clauses) out.old }
    ensures { Put 0 (header_text vars clauses) out.old result out.new }
{
    let behind_vars = put_field(out, 0, b"p cnf ", vars);
    let behind_clauses = put_field(out, behind_vars, b" ", clauses);
    put_byte(out, behind_clauses, 10)
}

// The whole text: the header, the forced literals as clauses by variable, and the clauses that hold none of them.
// Rules out: the clauses of the formula counted in the header; forced literals without clauses of their own.
// Required of: shorter::put_settled, for the values that a run has forced.
pub fn put_folded(
    out: &mut [u8],
    entries: &[i32],
    starts: &[u16],
    values: &[u8],
    forced: u32,
) -> usize
    requires { FoldedReady values.now entries.now starts.now forced out.old }
    ensures { Put 0 (folded_text values.now (clauses entries.now) forced) out.old result out.new }
{
    let count = others::count_others(entries, starts, values);
    let behind_header = put_header(out, values.len(), forced as usize + count);
    let behind_units = units::put_units(out, behind_header, values);
    others::put_others(out, behind_units, entries, starts, values)
}

// The text of a formula that has no model: one clause, which is empty.
// Rules out: no clause; the formula as it was.
// Required of: shorter::put_answer, whose room is the whole text's.
pub fn put_empty(out: &mut [u8], vars: u32) -> usize
    requires { Room 0 (plain vars ([] ∷ [])) out.old }
    ensures { Put 0 (plain vars ([] ∷ [])) out.old result out.new }
{
    let next = put_header(out, vars as usize, 1);
    put_word(out, next, b"0\n")
}
