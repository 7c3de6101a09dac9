// What is refused of an entry list and of held literals, in the order 10, 1, 11, 12, 15, 13 (docs/RULES.md, "What comes back"). 10 and 1 are of
// whoever takes them, 11 and 12 the list's own, 15 and 13 the held literals'. Nobody has to check any first.
#![tactic(auto)]

ghost use Rattle.std.specs.Prelude.{◌≡◌};
ghost use Rattle.rules.specs.Lists.{first_of, is_zero};
ghost use Rattle.rules.specs.Answer.{is_ended, is_above, list_rules, taking_rules, out_of_limits, too_short};
ghost use Rattle.refusals.specs.Refuse.{found, nth_within};

use formula::lit::var_of;
use rules::{Lit, Refusal};

pub mod held;

// Whether a list is empty or ended by 0.
fn is_ended(entries: &[i32]) -> bool
    ensures { result ≡ is_ended entries.now }
{
    let Some(&last) = entries.last() else {
        return true;
    };
    last == 0
}

// The index of the zero that has n zeros before it, if there is one.
fn nth_zero(entries: &[i32], n: u32) -> Option<usize>
    ensures { result ≡ nth_within is_zero entries.now n }
{
    let mut left = n;
    for (i, &entry) in entries.iter().enumerate() {
        if entry == 0 {
            if left == 0 {
                return Some(i);
            }
            left -= 1;
        }
    }
    None
}

// The index of the first entry with a variable above V, if there is one.
fn first_above(entries: &[i32], vars: u32) -> Option<usize>
    ensures { result ≡ nth_within (is_above vars) entries.now 0 }
{
    entries
        .iter()
        .position(|&entry| vars < var_of(Lit(entry)).0)
}

// Why a list is refused, if it is: 11 and 12, whoever takes it. Every list and every V is answered.
// Rules out: a list that is not ended accepted; 12 before a case of 11.
fn refuse_list(entries: &[i32], vars: u32) -> Result<(), Refusal>
    ensures { result ≡ found (first_of (list_rules entries.now vars)) }
{
    if rules::MAX_ENTRIES < entries.len() {
        return Err(Refusal::BadList(rules::MAX_ENTRIES));
    }
    if !is_ended(entries) {
        return Err(Refusal::BadList(entries.len()));
    }
    if let Some(over) = nth_zero(entries, rules::MAX_CLAUSES) {
        return Err(Refusal::BadList(over));
    }
    if let Some(above) = first_above(entries, vars) {
        return Err(Refusal::EntryOverVars(above));
    }
    Ok(())
}

// Why a list with held literals is refused, if it is, whoever takes it: 10 where its limits are bad, 1 where a buffer is too short, then the
// list's own, then the held literals'.
// Rules out: 11 before 1; 13 before 12.
#[tactic(auto, using(crate::proofs::FoundLaws::after_list, crate::proofs::FoundLaws::of_list))]
pub fn refuse(
    bad_limits: bool,
    short: bool,
    entries: &[i32],
    vars: u32,
    held: &[i32],
) -> Result<(), Refusal>
    ensures { result ≡ found (first_of (taking_rules bad_limits short entries.now vars held.now)) }
{
    if bad_limits {
        return Err(Refusal::BadLimits);
    }
    if short {
        return Err(Refusal::ShortBuffer);
    }
    refuse_list(entries, vars)?;
    held::refuse_held(held, vars)
}

// Whether a run's limits are not allowed.
// Rules out: 257 variables allowed; a chunk limit of 0 allowed.
pub fn out_of_limits(vars: u32, limit: u32) -> bool
    ensures { result ≡ out_of_limits vars limit }
{
    rules::MAX_VARS < vars || (limit == 0 || rules::MAX_CHUNK < limit)
}

// Whether a buffer of a run is too short, by their lengths.
// Rules out: buffers of just the size called short; a log that lacks one number called long enough.
pub fn too_short(
    vars: u32,
    status: usize,
    calls: usize,
    ways: usize,
    hints: usize,
    log: usize,
) -> bool
    ensures { result ≡ too_short vars status calls ways hints log }
{
    let n = vars as usize;
    status < n || (calls < n || (ways < n || (hints < n || log < 6 * (n + 1))))
}
