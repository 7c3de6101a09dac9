// A model as a line of V literals (docs/RULES.md, "The printed reason").
ghost use Rattle.std.specs.Prelude.{◌≤◌, length};
ghost use Rattle.rules.specs.Lists.{pieces};
ghost use Rattle.rules.specs.Numbers.{max_vars};
ghost use Rattle.texts.specs.ModelLine.{space_before, model_literal, model_line};
ghost use Rattle.buffers.specs.Put.{Put, Room};

use buffers::put::{put_byte, put_signed};

// A space, but not before the literal of variable 1.
// Rules out: a line that begins with a space; two literals in one word.
// Required of: put_literal, whose room is the literal's too.
fn put_space(out: &mut [u8], at: usize, v: rules::Var) -> usize
    requires { Room at (space_before v.0) out.old }
    ensures { Put at (space_before v.0) out.old result out.new }
{
    if v.0 < 2 {
        return at;
    }
    put_byte(out, at, 32)
}

// The literal of a variable by its value: 0 is false.
// Rules out: a minus before a true variable; the number less one.
// Required of: put_literals, whose room is that of all literals.
fn put_literal(out: &mut [u8], at: usize, v: rules::Var, bit: u8) -> usize
    requires { Room at (model_literal v.0 bit) out.old }
    ensures { Put at (model_literal v.0 bit) out.old result out.new }
{
    let number = v.0 as usize;
    let next = put_space(out, at, v);
    put_signed(out, next, bit == 0, number)
}

// A literal for each variable, one space between.
// Rules out: the last variable left out; literals numbered from 0.
// Required of: put_model, whose room is the whole line's.
fn put_literals(out: &mut [u8], at: usize, bits: &[u8]) -> usize
    requires { Room at (pieces model_literal 1 bits.now) out.old × (length bits.now ≤ max_vars) }
    ensures { Put at (pieces model_literal 1 bits.now) out.old result out.new }
{
    let mut next = at;
    for (i, &bit) in bits.iter().enumerate() {
        next = put_literal(out, next, rules::Var(i as u32 + 1), bit);
    }
    next
}

// The line of a model, a value of 0 or 1 for each variable.
// Rules out: a line without LF; the line of another model.
// Required of: why_printed::answer::put_false, whose room is the whole answer's.
pub fn put_model(out: &mut [u8], at: usize, bits: &[u8]) -> usize
    requires { Room at (model_line bits.now) out.old × (length bits.now ≤ max_vars) }
    ensures { Put at (model_line bits.now) out.old result out.new }
{
    let next = put_literals(out, at, bits);
    put_byte(out, next, 10)
}
