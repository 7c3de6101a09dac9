// The lines of values (docs/RULES.md, "The printed groups"), each ended by LF.
ghost use Rattle.std.specs.Prelude.{◌≤◌, length};
ghost use Rattle.rules.specs.Lists.{pieces};
ghost use Rattle.rules.specs.Numbers.{max_vars};
ghost use Rattle.texts.specs.GroupsPrinted.{value_word, value_line, group_lines};
ghost use Rattle.buffers.specs.Put.{Put, Room};
ghost use Rattle.groups_printed.specs.Table.{LinesOver};

use buffers::put::{put_byte, put_decimal, put_field, put_word};

// What a status byte says of a value.
// Rules out: settled and dead exchanged; free for a value that is open.
// Required of: put_value, whose room is the whole line's.
fn put_status(out: &mut [u8], at: usize, status: u8) -> usize
    requires { Room at (value_word status) out.old }
    ensures { Put at (value_word status) out.old result out.new }
{
    if status == 0 {
        return put_word(out, at, b" open");
    }
    if status == 1 {
        return put_word(out, at, b" free");
    }
    if status == 2 {
        return put_word(out, at, b" settled");
    }
    put_word(out, at, b" dead")
}

// The line of a value: its group, its number in the group, and its status.
// Rules out: both numbers exchanged; a line without LF.
// Required of: put_values, whose room is that of all lines.
fn put_value(out: &mut [u8], at: usize, group: usize, value: usize, status: u8) -> usize
    requires { Room at (value_line group value status) out.old }
    ensures { Put at (value_line group value status) out.old result out.new }
{
    let behind_group = put_decimal(out, at, group);
    let behind_value = put_field(out, behind_group, b":", value);
    let behind_status = put_status(out, behind_value, status);
    put_byte(out, behind_status, 10)
}

// A line for each value of a group.
// Rules out: the last value left out; values numbered from 0.
// Required of: put_groups, whose room is that of all lines.
fn put_values(out: &mut [u8], at: usize, group: usize, status: &[u8]) -> usize
    requires { Room at (pieces (value_line group) 1 status.now) out.old × (length status.now ≤ max_vars) }
    ensures { Put at (pieces (value_line group) 1 status.now) out.old result out.new }
{
    let mut next = at;
    for (i, &byte) in status.iter().enumerate() {
        next = put_value(out, next, group, i + 1, byte);
    }
    next
}

// The lines of all groups, one behind the other.
// Rules out: groups numbered from 0; the statuses of the first group under each.
// Required of: table::put_table, whose room is the whole table's.
pub fn put_groups(out: &mut [u8], at: usize, sizes: &[u8], status: &[u8]) -> usize
    requires { LinesOver at sizes.now status.now out.old }
    ensures { Put at (group_lines 1 sizes.now status.now) out.old result out.new }
{
    let mut next = at;
    let mut from: usize = 0;
    for (i, &size) in sizes.iter().enumerate() {
        let to = from + size as usize;
        next = put_values(out, next, i + 1, &status[from..to]);
        from = to;
    }
    next
}
