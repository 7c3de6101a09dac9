// What is refused, in the order 10, 1, 11, 12, 13 (docs/RULES.md, "Why").
ghost use Rattle.std.specs.Prelude.{◌≡◌};
ghost use Rattle.rules.specs.Lists.{first_of};
ghost use Rattle.rules.specs.Why.{why_short, literal_rules, why_rules};
ghost use Rattle.refusals.specs.Refuse.{found};

use refusals::held::is_no_literal;
use rules::{Lit, Refusal};

// Whether a buffer is too short, by their lengths.
// Rules out: 1,023 marks called enough; buffers of just the size called short.
fn is_short(vars: u32, marks: usize, values: usize) -> bool
    ensures { result ≡ why_short vars marks values }
{
    marks < rules::MAX_MARKS || values < vars as usize
}

// 13, if the literal is none.
// Rules out: another place than 0; 12 for 13.
fn refuse_literal(literal: Lit, vars: u32) -> Result<(), Refusal>
    ensures { result ≡ found (first_of (literal_rules literal.0 vars)) }
{
    if is_no_literal(literal, vars) {
        return Err(Refusal::BadLiteral(0));
    }
    Ok(())
}

// Why a question is refused, if it is, by the lengths of the buffers.
// Rules out: 13 before 11; a short buffer accepted.
pub fn refuse(
    entries: &[i32],
    vars: u32,
    literal: Lit,
    marks: usize,
    values: usize,
) -> Result<(), Refusal>
    ensures { result ≡ found (first_of (why_rules entries.now vars literal.0 marks values)) }
{
    let many = rules::MAX_VARS < vars;
    let short = is_short(vars, marks, values);
    refusals::refuse(many, short, entries, vars, &entries[..0])?;
    refuse_literal(literal, vars)
}
