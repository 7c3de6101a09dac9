// The clauses of a file of groups: docs/RULES.md, "Groups". Their entries stand behind those of the groups; from the 4,097th on they are judged
// and counted and not stored.
ghost use Rattle.std.specs.Prelude.{◌≡◌, ◌≤◌, length};
ghost use Rattle.rules.specs.Numbers.{max_text, max_vars, max_entries};
ghost use Rattle.groups.specs.Clauses.{max_base, stored_if, ClausesAt};

use crate::step::{Due, next_step};
use reader::token::value_of;
use rules::{GroupsAnswer, MAX_ENTRIES};

// Stores an entry, if the list has room for it.
// Rules out: the 4,097th entry stored; the 4,096th left out.
// Required of: read_clauses, which has 4,096 entries.
fn put_entry(entries: &mut [i32], n: usize, x: i32)
    requires { max_entries ≤ length entries.old }
    ensures { entries.new ≡ stored_if n x entries.old }
{
    if n < MAX_ENTRIES {
        entries[n] = x;
    }
}

// The entries that stand from `at` on, behind `base` others: how many the whole list has.
// Rules out: 11 where 9 is due; an entry left out.
// Required of: read_list, with the number of variables and of clauses that fit.
pub fn read_clauses(
    text: &[u8],
    at: usize,
    vars: u32,
    clauses: u32,
    base: usize,
    entries: &mut [i32],
) -> Result<usize, GroupsAnswer>
    requires { (at ≤ length text.now) × (length text.now ≤ max_text) × (vars ≤ max_vars) × (base ≤ max_base) × (max_entries ≤ length entries.old) }
    ensures { ClausesAt text.now at vars clauses base entries.old result entries.new }
{
    let mut next = at;
    let mut complete: u32 = 0;
    let mut n = base;
    while let Some((to, e)) = next_step(text, next, Due::Entry(vars, clauses, complete))? {
        put_entry(entries, n, value_of(e));
        n += 1;
        if e.number == 0 {
            complete += 1;
        }
        next = to;
    }
    if complete < clauses {
        return Err(GroupsAnswer::ShortText(text.len()));
    }
    Ok(n)
}
