// The entries of the clauses that are marked, as a list of their own.
ghost use Rattle.std.specs.Prelude.{◌<◌, length};
ghost use Rattle.reason.specs.Kept.{PutsIf, MarkRoom, MarkedPut};

// Puts an entry at n if its clause's mark is not 0; answers how many are put then.
// Rules out: an entry put whose mark is 0; a number that stays where one is put.
// Required of: put_marked, within both lists.
fn put_if(entries: &[i32], i: usize, mark: u8, out: &mut [i32], n: usize) -> usize
    requires { (i < length entries.now) × (n < length out.old) }
    ensures { PutsIf mark entries.now i n out.old result out.new }
{
    if mark == 0 {
        return n;
    }
    out[n] = entries[i];
    n + 1
}

// Puts the entries of the marked clauses one behind the other, and returns how many there are.
// Rules out: a clause put that is not marked; a closing zero left out.
// Required of: call::marked_call, whose lists no rule refuses.
pub fn put_marked(entries: &[i32], marks: &[u8], out: &mut [i32]) -> usize
    requires { MarkRoom entries.now marks.now out.old }
    ensures { MarkedPut entries.now marks.now out.old result out.new }
{
    let mut clause: usize = 0;
    let mut n: usize = 0;
    for (i, &entry) in entries.iter().enumerate() {
        n = put_if(entries, i, marks[clause], out, n);
        if entry == 0 {
            clause += 1;
        }
    }
    n
}
