// The model of a file, docs/RULES.md, "Claims": its count, its literals variable by variable, and whether it is one.
ghost use Rattle.std.specs.Prelude.{◌≤◌, length};
ghost use Rattle.rules.specs.Numbers.{max_vars};
ghost use Rattle.rules.specs.Meaning.{clauses};
ghost use Rattle.formula.specs.Formula.{Formula};
ghost use Rattle.claims.specs.Steps.{LiteralsRead, ModelRead};

use crate::taken::{Due, taken};
use formula::first_false::first_false;
use formula::value::byte_of;
use rules::ClaimsAnswer;

// The literals of the model, variable by variable: their values.
// Rules out: a literal of another variable taken; true and false exchanged.
// Required of: read_model, whose formula has at most 256 variables.
fn read_literals(text: &[u8], at: usize, values: &mut [u8]) -> Result<usize, ClaimsAnswer>
    requires { length values.old ≤ max_vars }
    ensures { LiteralsRead text.now at (length values.old) result values.new }
{
    let mut next = at;
    for (i, value) in values.iter_mut().enumerate() {
        let spot = taken(text, next, Due::Literal(i as u32 + 1))?;
        *value = byte_of(!spot.entry.minus);
        next = spot.to;
    }
    Ok(next)
}

// The model: where it ends, or the answer. A failing clause has the place of the count.
// Rules out: a model that fails the last clause taken; a failing clause at the place of the last literal.
// Required of: check_file, which requires it too.
pub fn read_model(
    entries: &[i32],
    starts: &[u16],
    text: &[u8],
    values: &mut [u8],
) -> Result<usize, ClaimsAnswer>
    requires { Formula (length values.old) entries.now starts.now }
    ensures { ModelRead (length values.old) (clauses entries.now) text.now result }
{
    let count = taken(text, 0, Due::Count(values.len() as u32))?;
    let next = read_literals(text, count.to, values)?;
    match first_false(entries, starts, values) {
        None => Ok(next),
        Some(_) => Err(ClaimsAnswer::Rejected(count.from)),
    }
}
