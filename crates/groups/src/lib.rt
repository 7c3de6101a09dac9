// Groups: docs/RULES.md, "Groups". A file of groups, each by its number of values, and of clauses: its numbers are read from left to right and
// judged, and the clauses of groups are stored in front of the file's own ones. The tokens are the reader's.
#![tactic(auto)]

mod clauses;
mod count;
mod expand;
mod judge;
mod sizes;
mod step;

ghost use Rattle.std.specs.Prelude.{◌≡◌, [], ◌≤◌, length, take};
ghost use Rattle.rules.specs.Numbers.{max_vars, max_clauses, max_entries};
ghost use Rattle.texts.specs.Plain.{entries_of};
ghost use Rattle.texts.specs.Groups.{max_groups, groups_from, vars_in};
ghost use Rattle.texts.specs.GroupsReading.{groups_due, sizes_due, entries_due, groups_returned, groups_given, sizes_filled, ReadsGroups};
ghost use Rattle.texts.specs.GroupsReading.{refused as Judged·refused};
ghost use Rattle.groups.specs.Steps.{left_at};
ghost use Rattle.groups.specs.Lists.{finished_of, Placed, ListStores, SizesStore, SizesRead, Lent};

use clauses::read_clauses;
use count::clauses_of;
use expand::put_groups;
use rules::{GroupsAnswer, GroupsReading, MAX_CLAUSES, MAX_ENTRIES, MAX_GROUPS, MAX_TEXT};
use sizes::{read_number, read_sizes};
use step::Due;

// All counts are zero.
// Rules out: the number of groups after a refusal; another answer than the one given.
fn refused(answer: GroupsAnswer) -> GroupsReading
    ensures { result ≡ groups_returned (Judged·refused answer) }
{
    GroupsReading {
        answer,
        groups: 0,
        vars: 0,
        clauses: 0,
        entries: 0,
    }
}

// What is returned of a file that is complete: 11 if its expanded list is too long.
// Rules out: 1,025 clauses; 4,097 entries.
fn finished(groups: u32, vars: u32, clauses: u32, n: usize) -> GroupsReading
    ensures { result ≡ finished_of groups vars clauses n }
{
    if MAX_CLAUSES < clauses {
        return refused(GroupsAnswer::LongList);
    }
    if MAX_ENTRIES < n {
        return refused(GroupsAnswer::LongList);
    }
    GroupsReading {
        answer: GroupsAnswer::Accepted,
        groups,
        vars,
        clauses,
        entries: n,
    }
}

// The clauses of groups, if the list has room for them: n entries.
// Rules out: a list that does not fit; the groups left out.
// Required of: read_list, for sizes that fit.
fn place_groups(sizes: &[u8], n: usize, entries: &mut [i32])
    requires { (n ≡ length (entries_of (groups_from 0 sizes.now))) × (vars_in sizes.now ≤ max_vars) × (max_entries ≤ length entries.old) }
    ensures { Placed sizes.now entries.old entries.new }
{
    if n <= MAX_ENTRIES {
        put_groups(sizes, entries);
    }
}

// Behind the number of clauses: the groups, and the file's own clauses behind them.
// Rules out: the file's clauses first; the counts of the file's own list.
// Required of: read_rest, for sizes that fit.
fn read_list(
    text: &[u8],
    at: usize,
    sizes: &[u8],
    vars: u32,
    clauses: u32,
    entries: &mut [i32],
) -> GroupsReading
    requires { SizesRead text.now sizes.now at vars entries.old × (clauses ≤ max_clauses) }
    ensures { ListStores (left_at text.now (entries_due sizes.now clauses []) at) entries.old result entries.new }
{
    let own = clauses_of(sizes);
    let groups = sizes.len();
    let base = (3 * own + vars) as usize - 2 * groups;
    place_groups(sizes, base, entries);
    match read_clauses(text, at, vars, clauses, base, entries) {
        Err(a) => refused(a),
        Ok(n) => finished(groups as u32, vars, own + clauses, n),
    }
}

// Behind the sizes: the number of clauses, and the list.
// Rules out: 16 for a number of clauses; clauses before their number.
// Required of: read_body, for sizes that fit.
fn read_rest(text: &[u8], at: usize, sizes: &[u8], vars: u32, entries: &mut [i32]) -> GroupsReading
    requires { SizesRead text.now sizes.now at vars entries.old }
    ensures { ListStores (left_at text.now (sizes_due 0 sizes.now) at) entries.old result entries.new }
{
    match read_number(text, at, Due::Count) {
        Err(a) => refused(a),
        Ok((to, clauses)) => read_list(text, to, sizes, vars, clauses, entries),
    }
}

// Behind the number of groups: their sizes, and the rest.
// Rules out: the sizes left out; a group more than there are.
// Required of: read_text, for a number of groups that fits.
fn read_body(
    text: &[u8],
    at: usize,
    groups: usize,
    entries: &mut [i32],
    sizes: &mut [u8],
) -> GroupsReading
    requires { Lent text.now entries.old sizes.old × (at ≤ length text.now) × (groups ≤ max_groups) }
    ensures { ListStores (left_at text.now (sizes_due groups []) at) entries.old result entries.new
        × SizesStore (left_at text.now (sizes_due groups []) at) sizes.old sizes.new }
{
    match read_sizes(text, at, groups, sizes) {
        Err(a) => refused(a),
        Ok((to, vars)) => read_rest(text, to, &sizes[..groups], vars, entries),
    }
}

// The whole text. What stands in the buffers behind what is counted is left to the caller.
// Rules out: a second number of groups; a text read from its second token.
// Required of: read_groups, behind 1 and 2.
fn read_text(text: &[u8], entries: &mut [i32], sizes: &mut [u8]) -> GroupsReading
    requires { Lent text.now entries.old sizes.old }
    ensures { ListStores (left_at text.now groups_due 0) entries.old result entries.new
        × SizesStore (left_at text.now groups_due 0) sizes.old sizes.new }
{
    match read_number(text, 0, Due::Groups) {
        Err(a) => refused(a),
        Ok((to, n)) => read_body(text, to, n as usize, entries, sizes),
    }
}

// Zeros behind the sizes, up to the 128th.
// Rules out: the 128th size as it was; the sizes cleared with the rest.
// Required of: read_groups, which has asked for 128 sizes and counts no more.
fn clear_sizes(sizes: &mut [u8], from: usize)
    requires { (from ≤ max_groups) × (max_groups ≤ length sizes.old) }
    ensures { sizes.new ≡ sizes_filled (take from sizes.old) sizes.old }
{
    sizes[from..MAX_GROUPS].fill(0);
}

// Reads a file of groups into the entries and the sizes that are lent: number and place, how many groups, and variables, clauses and entries of the
// expanded list; that list and the sizes, each with zeros behind, or zeros alone.
// Rules out: entries left in the buffer after 16; pairs before the clause of their group.
pub fn read_groups(text: &[u8], entries: &mut [i32], sizes: &mut [u8]) -> GroupsReading
    ensures { ReadsGroups (groups_given text.now entries.old sizes.old)
        result entries.new sizes.new }
{
    if entries.len() < MAX_ENTRIES {
        return refused(GroupsAnswer::ShortBuffer);
    }
    if sizes.len() < MAX_GROUPS {
        return refused(GroupsAnswer::ShortBuffer);
    }
    if MAX_TEXT < text.len() {
        return refused(GroupsAnswer::LongText);
    }
    let r = read_text(text, entries, sizes);
    let n = r.entries;
    let groups = r.groups as usize;
    reader::store::clear(entries, n);
    clear_sizes(sizes, groups);
    r
}
