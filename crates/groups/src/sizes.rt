// The counts of a file of groups: docs/RULES.md, "Groups". The number of groups, their sizes, and the number of clauses.
ghost use Rattle.std.specs.Prelude.{◌≤◌, length};
ghost use Rattle.texts.specs.Groups.{max_groups};
ghost use Rattle.groups.specs.Steps.{Counts, CountsAt, SizesAt};

use crate::step::{Due, next_step};
use rules::GroupsAnswer;

// A number of groups, of values or of clauses, and the byte behind it.
// Rules out: 0 for a number that is missing; the size of another group.
// Required of: whoever reads one, and counts no more than 256 variables.
pub fn read_number(text: &[u8], at: usize, due: Due) -> Result<(usize, u32), GroupsAnswer>
    requires { Counts due }
    ensures { CountsAt text.now at due result }
{
    let Some((to, e)) = next_step(text, at, due)? else {
        return Err(GroupsAnswer::ShortText(text.len()));
    };
    Ok((to, e.number))
}

// The sizes of so many groups, stored from the front on, and the number of their variables.
// Rules out: the last size left out; a size that passes 256 variables.
// Required of: read_body, behind a number of groups that fits.
pub fn read_sizes(
    text: &[u8],
    at: usize,
    groups: usize,
    sizes: &mut [u8],
) -> Result<(usize, u32), GroupsAnswer>
    requires { (at ≤ length text.now) × (groups ≤ max_groups) × (max_groups ≤ length sizes.old) }
    ensures { SizesAt text.now at groups sizes.old result sizes.new }
{
    let mut next = at;
    let mut vars: u32 = 0;
    for i in 0..groups {
        let (to, n) = read_number(text, next, Due::Size(vars))?;
        sizes[i] = n as u8;
        vars += n;
        next = to;
    }
    Ok((next, vars))
}
