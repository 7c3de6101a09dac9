// A number that fits, or what is refused of it, where something is due: docs/RULES.md, "Groups". At one token the order is 16, 4, 6, 7, behind 5.
ghost use Rattle.std.specs.Prelude.{◌≡◌, ◌≤◌};
ghost use Rattle.rules.specs.Numbers.{max_vars};
ghost use Rattle.rules.specs.Lists.{first_of};
ghost use Rattle.texts.specs.GroupsReading.{is_between};
ghost use Rattle.reader.specs.Words.{value_of};
ghost use Rattle.groups.specs.Stages.{verdict_of, count_rules, group_rules, size_rules, entry_rules};

use reader::token::Entry;
use rules::{GroupsAnswer, MAX_CLAUSES, MAX_VARS};

// Whether a number is from low to high.
// Rules out: true for -2 from 2 to 16; false for the bounds themselves.
fn is_between(e: Entry, low: u32, high: u32) -> bool
    ensures { result ≡ is_between low high (value_of e) }
{
    if e.number < low {
        return false;
    }
    if high < e.number {
        return false;
    }
    if e.number == 0 {
        return true;
    }
    !e.minus
}

// The number of groups: 16.
// Rules out: 129 groups; -1 of them.
pub fn judge_groups(from: usize, e: Entry) -> Result<(), GroupsAnswer>
    ensures { result ≡ verdict_of (first_of (group_rules from (value_of e))) }
{
    if !is_between(e, 0, 128) {
        return Err(GroupsAnswer::BadGroup(from));
    }
    Ok(())
}

// A size, with so many variables before it: 16, then 4.
// Rules out: a size of 1; 257 variables; 4 for a size of 17.
// Required of: whoever reads the sizes, and counts no more than 256 variables.
pub fn judge_size(vars: u32, from: usize, e: Entry) -> Result<(), GroupsAnswer>
    requires { vars ≤ max_vars }
    ensures { result ≡ verdict_of (first_of (size_rules vars from (value_of e))) }
{
    if !is_between(e, 2, 16) {
        return Err(GroupsAnswer::BadGroup(from));
    }
    if MAX_VARS - vars < e.number {
        return Err(GroupsAnswer::OverSizes(from));
    }
    Ok(())
}

// The number of clauses: 4.
// Rules out: 1,025 clauses; 16 for a count that is negative.
pub fn judge_count(from: usize, e: Entry) -> Result<(), GroupsAnswer>
    ensures { result ≡ verdict_of (first_of (count_rules from (value_of e))) }
{
    if !is_between(e, 0, MAX_CLAUSES) {
        return Err(GroupsAnswer::OverSizes(from));
    }
    Ok(())
}

// An entry, with so many of the clauses complete: 6, then 7.
// Rules out: 7 behind the last clause; a variable above the last one.
pub fn judge_entry(
    vars: u32,
    clauses: u32,
    complete: u32,
    from: usize,
    e: Entry,
) -> Result<(), GroupsAnswer>
    ensures { result ≡ verdict_of (first_of (entry_rules vars clauses complete from (value_of e))) }
{
    if clauses <= complete {
        return Err(GroupsAnswer::TokenBehind(from));
    }
    if vars < e.number {
        return Err(GroupsAnswer::TokenOverVars(from));
    }
    Ok(())
}
