// One number of a file of groups: docs/RULES.md, "Groups". It is found, and judged by what is due there.
ghost use Rattle.std.specs.Prelude.{◌≡◌};
ghost use Rattle.rules.specs.Lists.{first_of};
ghost use Rattle.reader.specs.Words.{value_of};
ghost use Rattle.groups.specs.Stages.{verdict_of};
ghost use Rattle.groups.specs.Steps.{due_rules, DueFits, Steps};

use crate::judge::{judge_count, judge_entry, judge_groups, judge_size};
use reader::next::{Spot, next_number};
use reader::token::Entry;
use rules::GroupsAnswer;

// What is due: the number of groups; a size, with so many variables before it; the number of clauses; an entry, with the number of variables, of
// clauses, and of those that are complete.
// Stays an enum and no closure: `due_rules` says by it what is refused, and a closure would have to promise the same.
#[derive(Clone, Copy)]
pub enum Due {
    Groups,
    Size(u32),
    Count,
    Entry(u32, u32, u32),
}

// A number by what is due.
// Rules out: a size judged as a number of groups; 6 where a size is due.
// Required of: next_step, whose callers count no more than 256 variables.
fn judge(due: Due, from: usize, e: Entry) -> Result<(), GroupsAnswer>
    requires { DueFits due }
    ensures { result ≡ verdict_of (first_of (due_rules due from (value_of e))) }
{
    match due {
        Due::Groups => judge_groups(from, e),
        Due::Size(vars) => judge_size(vars, from, e),
        Due::Count => judge_count(from, e),
        Due::Entry(vars, clauses, complete) => judge_entry(vars, clauses, complete, from, e),
    }
}

// The next number from `at` on, up to the byte behind it, if it fits; nothing at the end of text.
// Rules out: 16 where 5 is due; a token passed over.
// Required of: whoever reads a part, and counts no more than 256 variables.
pub fn next_step(text: &[u8], at: usize, due: Due) -> Result<Option<(usize, Entry)>, GroupsAnswer>
    requires { DueFits due }
    ensures { Steps text.now at due result }
{
    match next_number(text, at) {
        Err(from) => Err(GroupsAnswer::BadToken(from)),
        Ok(None) => Ok(None),
        Ok(Some(Spot { from, to, entry })) => {
            judge(due, from, entry)?;
            Ok(Some((to, entry)))
        }
    }
}
