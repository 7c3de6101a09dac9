// Claims of other tools, docs/RULES.md, "Claims": a file with a model and trees is checked against a formula, from left to right.
#![tactic(auto)]

ghost use Rattle.std.specs.Prelude.{length};
ghost use Rattle.rules.specs.Meaning.{clauses};
ghost use Rattle.texts.specs.ClaimsReading.{claims_given, Checks};
ghost use Rattle.formula.specs.Formula.{Formula};
ghost use Rattle.claims.specs.Steps.{Unset, CountChecked, FileChecked, ListTaken};

use formula::starts::find_starts;
use rules::ClaimsAnswer;
use taken::{Due, taken};

pub mod claim;
pub mod model;
pub mod step;
pub mod taken;
pub mod tree;

// The claims behind a model, from their count on, where no variable is set.
// Rules out: a negative count taken; as many claims as there are clauses.
// Required of: check_file, which clears the values.
fn check_counted(
    entries: &[i32],
    starts: &[u16],
    text: &[u8],
    at: usize,
    values: &mut [u8],
) -> ClaimsAnswer
    requires { Unset entries.now starts.now values.old }
    ensures { CountChecked (length values.old) (clauses entries.now) text.now at result }
{
    match taken(text, at, Due::Claims) {
        Err(answer) => answer,
        Ok(spot) => claim::check_all(entries, starts, text, spot.to, spot.entry.number, values),
    }
}

// A whole file, with a byte for each variable.
// Rules out: claims without a model accepted; trees checked under the model.
// Required of: with_values, for a list that no rule refuses.
fn check_file(entries: &[i32], starts: &[u16], text: &[u8], values: &mut [u8]) -> ClaimsAnswer
    requires { Formula (length values.old) entries.now starts.now }
    ensures { FileChecked (length values.old) (clauses entries.now) text.now result }
{
    match model::read_model(entries, starts, text, values) {
        Err(answer) => answer,
        Ok(next) => {
            values.fill(0);
            check_counted(entries, starts, text, next, values)
        }
    }
}

// The same, with room for the values.
// Required of: with_starts, which requires it too.
fn with_values(entries: &[i32], starts: &[u16], vars: u32, text: &[u8]) -> ClaimsAnswer
    requires { Formula vars entries.now starts.now }
    ensures { FileChecked vars (clauses entries.now) text.now result }
{
    let mut values = [0u8; rules::MAX_VARS as usize];
    check_file(entries, starts, text, &mut values[..vars as usize])
}

// The same, with room for where the clauses start.
// Required of: check_claims, after 10, 11 and 12.
fn with_starts(entries: &[i32], vars: u32, text: &[u8]) -> ClaimsAnswer
    requires { ListTaken vars entries.now }
    ensures { FileChecked vars (clauses entries.now) text.now result }
{
    let mut starts = [0u16; rules::MAX_STARTS];
    let count = find_starts(entries, &mut starts);
    with_values(entries, &starts[..count + 1], vars, text)
}

// Whether a file of claims holds of a formula: how many claims do, or why it is refused or rejected, and where. Every list, every V and every
// text are answered.
// Rules out: a literal accepted that is not forced; a tree that holds rejected.
pub fn check_claims(entries: &[i32], vars: u32, text: &[u8]) -> ClaimsAnswer
    ensures { Checks (claims_given entries.now vars text.now) result }
{
    let many = rules::MAX_VARS < vars;
    let checked = refusals::refuse(many, false, entries, vars, &entries[..0]);
    match checked {
        Err(refusal) => ClaimsAnswer::Refused(refusal),
        Ok(()) => {
            if rules::MAX_TEXT < text.len() {
                return ClaimsAnswer::LongText;
            }
            with_starts(entries, vars, text)
        }
    }
}
