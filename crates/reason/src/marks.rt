// Marks as they are written.
ghost use Rattle.std.specs.Prelude.{◌≡◌, ◌++◌, ◌≤◌, length, drop, replicate};

// Marks the first n clauses.
// Rules out: one mark too few; the rest marked too.
// Required of: ask::second_call, with as many marks as there may be clauses.
pub fn mark_first(marks: &mut [u8], n: usize)
    requires { n ≤ length marks.old }
    ensures { marks.new ≡ replicate n 1 ++ drop n marks.old }
{
    marks[..n].fill(1);
}
