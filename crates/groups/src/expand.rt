// The clauses of groups, stored one behind the other: group by group one clause of all its values, ascending, then each pair negated, by
// lower and then higher number. Each function answers the index behind what it stored.
ghost use Rattle.std.specs.Prelude.{◌≡◌, [], ◌∷◌, ◌+◌, ◌≤◌, ◌<◌, pos, negsuc};
ghost use Rattle.rules.specs.Numbers.{max_vars};
ghost use Rattle.texts.specs.Plain.{entries_of};
ghost use Rattle.texts.specs.Groups.{vars_in, values_from, pairs_with, pairs_from, group_clauses, groups_from};
ghost use Rattle.held.specs.Stored.{Fits, Stored};
ghost use Rattle.groups.specs.Expand.{literal_at};

use reader::token::{Entry, value_of};

// The literal of the variable at an index, from 0.
// Rules out: -3 for index 3; 3 where it is negated.
// Required of: put_pair and put_values, below 256 variables.
fn literal(index: u32, minus: bool) -> i32
    requires { index < max_vars }
    ensures { result ≡ literal_at index minus }
{
    value_of(Entry {
        minus,
        number: index + 1,
    })
}

// Two values negated: not both hold.
// Rules out: the higher one first; a pair with no closing zero.
// Required of: put_pairs_with, whose room is that of the whole list.
fn put_pair(out: &mut [i32], at: usize, low: u32, high: u32) -> usize
    requires { Fits (negsuc low ∷ negsuc high ∷ pos 0 ∷ []) at out.old × (low < max_vars) × (high < max_vars) }
    ensures { Stored (negsuc low ∷ negsuc high ∷ pos 0 ∷ []) at out.old result out.new }
{
    out[at] = literal(low, true);
    out[at + 1] = literal(high, true);
    out[at + 2] = 0;
    at + 3
}

// A value with each of n values from an index on.
// Rules out: the last pair left out; a value with itself.
// Required of: put_pairs, whose room is that of the whole list.
fn put_pairs_with(out: &mut [i32], at: usize, low: u32, from: u32, n: u32) -> usize
    requires { Fits (entries_of (pairs_with low from n)) at out.old × (low < max_vars) × (from + n ≤ max_vars) }
    ensures { Stored (entries_of (pairs_with low from n)) at out.old result out.new }
{
    let mut next = at;
    for high in from..from + n {
        next = put_pair(out, next, low, high);
    }
    next
}

// Each pair of n values from an index on.
// Rules out: pairs by higher number first; a pair twice.
// Required of: put_group, whose room is that of the whole list.
fn put_pairs(out: &mut [i32], at: usize, first: u32, n: u32) -> usize
    requires { Fits (entries_of (pairs_from first n)) at out.old × (first + n ≤ max_vars) }
    ensures { Stored (entries_of (pairs_from first n)) at out.old result out.new }
{
    let mut next = at;
    let end = first + n;
    for low in first..end {
        next = put_pairs_with(out, next, low, low + 1, end - low - 1);
    }
    next
}

// n values from an index on, ascending.
// Rules out: the last value left out; values numbered from 0.
// Required of: put_group, whose room is that of the whole list.
fn put_values(out: &mut [i32], at: usize, first: u32, n: u32) -> usize
    requires { Fits (values_from first n) at out.old × (first + n ≤ max_vars) }
    ensures { Stored (values_from first n) at out.old result out.new }
{
    let mut next = at;
    for index in first..first + n {
        out[next] = literal(index, false);
        next += 1;
    }
    next
}

// One clause of all values, then the pairs.
// Rules out: the pairs first; no closing zero behind the values.
// Required of: put_groups, whose room is that of the whole list.
fn put_group(out: &mut [i32], at: usize, first: u32, n: u32) -> usize
    requires { Fits (entries_of (group_clauses first n)) at out.old × (first + n ≤ max_vars) }
    ensures { Stored (entries_of (group_clauses first n)) at out.old result out.new }
{
    let next = put_values(out, at, first, n);
    out[next] = 0;
    put_pairs(out, next + 1, first, n)
}

// All groups, by their sizes, from the front on.
// Rules out: values numbered from 1 in each group; the last group left out.
// Required of: whoever has judged the sizes, and that the list fits.
pub fn put_groups(sizes: &[u8], out: &mut [i32]) -> usize
    requires { Fits (entries_of (groups_from 0 sizes.now)) 0 out.old × (vars_in sizes.now ≤ max_vars) }
    ensures { Stored (entries_of (groups_from 0 sizes.now)) 0 out.old result out.new }
{
    let mut next: usize = 0;
    let mut first: u32 = 0;
    for size in sizes {
        let n = *size as u32;
        next = put_group(out, next, first, n);
        first += n;
    }
    next
}
