// Hints (docs/RULES.md, "Which clause holds a switch"): for each variable the first clause that its flip in the first model makes false.
ghost use Rattle.rules.specs.Meaning.{clauses};
ghost use Rattle.steps.specs.Flip.{FlipTestOver};
ghost use Rattle.steps.specs.Hint.{Hinted, HintsOver, HintsPut};

use crate::flip::flip_test;

// The hint of a variable in the first model; 0 where there is none, so that the variable is unset.
fn hint_of(entries: &[i32], starts: &[u16], first: &mut [u8], v: rules::Var) -> u32
    requires { FlipTestOver entries.now starts.now first.old v.0 }
    ensures { Hinted (clauses entries.now) v.0 first.old result first.new }
{
    let at = formula::value::index_of(v);
    if first[at] == 0 {
        return 0;
    }
    match flip_test(entries, starts, first, v) {
        None => 0,
        Some(n) => n.0,
    }
}

// Puts a hint for each variable.
// Rules out: hints judged in another model; one that an older run has left.
// Required of: backbone::first::with_hints, where the first model stands, or nothing.
pub fn put_hints(entries: &[i32], starts: &[u16], first: &mut [u8], hints: &mut [u32])
    requires { HintsOver entries.now starts.now first.old hints.old }
    ensures { HintsPut (clauses entries.now) first.old first.new hints.new }
{
    for (i, hint) in hints.iter_mut().enumerate() {
        *hint = hint_of(entries, starts, first, rules::Var(i as u32 + 1));
    }
}
