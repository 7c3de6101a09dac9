// The forced literals, each as a clause of its own.
ghost use Rattle.std.specs.Prelude.{◌≤◌, length};
ghost use Rattle.rules.specs.Lists.{pieces};
ghost use Rattle.rules.specs.Numbers.{max_vars};
ghost use Rattle.buffers.specs.Put.{Put, Room};
ghost use Rattle.folded.specs.Folded.{unit_line};

use buffers::put::{put_signed, put_word};
use rules::Var;

// The line of a variable, if it is forced.
// Rules out: a minus before a variable that is forced true; a line for one that is not forced.
// Required of: put_units, whose room is that of all lines.
fn put_unit(out: &mut [u8], at: usize, v: Var, byte: u8) -> usize
    requires { Room at (unit_line v.0 byte) out.old }
    ensures { Put at (unit_line v.0 byte) out.old result out.new }
{
    if byte == 0 {
        return at;
    }
    let next = put_signed(out, at, byte == 1, v.0 as usize);
    put_word(out, next, b" 0\n")
}

// A line for each variable that is forced.
// Rules out: the last variable left out; variables numbered from 0.
// Required of: put_folded, whose room is the whole text's.
pub fn put_units(out: &mut [u8], at: usize, values: &[u8]) -> usize
    requires { Room at (pieces unit_line 1 values.now) out.old × (length values.now ≤ max_vars) }
    ensures { Put at (pieces unit_line 1 values.now) out.old result out.new }
{
    let mut next = at;
    for (i, &byte) in values.iter().enumerate() {
        next = put_unit(out, next, Var(i as u32 + 1), byte);
    }
    next
}
