// Flips (docs/RULES.md, "Run"): each remaining candidate whose variable, flipped alone in the model, leaves all clauses of the formula
// true is dropped. Neither the constraint nor the forced literals are consulted.
ghost use Rattle.std.specs.Prelude.{◌≡◌};
ghost use Rattle.rules.specs.Meaning.{clauses};
ghost use Rattle.rules.specs.Run.{other_byte};
ghost use Rattle.steps.specs.Flip.{FlipTestOver, FlipTested, FlipAtOver, FlipsAt, FlipOver, Flips};

use formula::first_false::first_false;
use rules::ClauseNo;

// The other of the two values.
// Rules out: a value for an unset variable; the value itself.
pub fn other_byte(byte: u8) -> u8
    ensures { result ≡ other_byte byte }
{
    if byte == 0 {
        0
    } else if byte == 1 {
        2
    } else {
        1
    }
}

// The flip test: whether a variable, flipped alone in the model, leaves all clauses of the formula true, or the first clause that it
// makes false. The model is afterwards what it was: no flip is kept for the next.
// Rules out: a flip that is kept; a clause that the forced literals make false.
// Required of: flip_at and hint::hint_of, for a variable of the model.
pub fn flip_test(
    entries: &[i32],
    starts: &[u16],
    model: &mut [u8],
    v: rules::Var,
) -> Option<ClauseNo>
    requires { FlipTestOver entries.now starts.now model.old v.0 }
    ensures { FlipTested (clauses entries.now) v.0 model.old result model.new }
{
    let at = formula::value::index_of(v);
    let byte = model[at];
    model[at] = other_byte(byte);
    let flip = first_false(entries, starts, model);
    model[at] = byte;
    flip
}

// Drops the candidate at an index if its variable can be flipped, and answers 1 if so, else 0.
fn flip_at(entries: &[i32], starts: &[u16], model: &mut [u8], status: &mut [u8], i: usize) -> u32
    requires { FlipAtOver entries.now starts.now model.old status.old i }
    ensures { FlipsAt (clauses entries.now) i model.old status.old result model.new status.new }
{
    if status[i] == 0 {
        let flip = flip_test(entries, starts, model, rules::Var(i as u32 + 1));
        crate::compare::drop_if(status, i, flip.is_none())
    } else {
        0
    }
}

// Drops each remaining candidate whose variable can be flipped, one by one, and answers how many.
// Rules out: two flips judged at once; a flip that is kept.
// Required of: calls::after::after_model, which requires it too.
pub fn flip(entries: &[i32], starts: &[u16], model: &mut [u8], status: &mut [u8]) -> u32
    requires { FlipOver entries.now starts.now model.old status.old }
    ensures { Flips (clauses entries.now) model.old status.old result model.new status.new }
{
    let mut dropped: u32 = 0;
    for i in 0..status.len() {
        dropped += flip_at(entries, starts, model, status, i);
    }
    dropped
}
