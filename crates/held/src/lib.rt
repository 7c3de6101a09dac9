// An entry list with the held literals behind it (docs/RULES.md, "Choices already made"): one list, made once a run.
#![tactic(auto)]

ghost use Rattle.rules.specs.Held.{held_entries, list_with};
ghost use Rattle.held.specs.Stored.{Fits, Stored, ListPut};

// Stores the entries from the front on; answers how many there are.
// Rules out: the last entry left out; entries one further on.
// Required of: put_list, whose room is that of the whole list.
pub fn put_entries(entries: &[i32], out: &mut [i32]) -> usize
    requires { Fits entries.now 0 out.old }
    ensures { Stored entries.now 0 out.old result out.new }
{
    let n = entries.len();
    out[..n].copy_from_slice(entries);
    n
}

// Stores each held literal, and the 0 that closes its clause, from an index on; answers the index behind them.
// Rules out: one clause of all held literals; a closing zero left out.
// Required of: put_list, whose room is that of the whole list.
pub fn put_held(held: &[i32], out: &mut [i32], at: usize) -> usize
    requires { Fits (held_entries held.now) at out.old }
    ensures { Stored (held_entries held.now) at out.old result out.new }
{
    let mut next = at;
    for literal in held {
        out[next] = *literal;
        out[next + 1] = 0;
        next += 2;
    }
    next
}

// Stores an entry list with the held literals behind it, and answers how many entries that is. The rest of the buffer stays.
// Rules out: held literals in front of the formula; a cleared rest.
// Required of: whoever runs a list with held literals, with room for both.
pub fn put_list(entries: &[i32], held: &[i32], out: &mut [i32]) -> usize
    requires { Fits (list_with entries.now held.now) 0 out.old }
    ensures { ListPut entries.now held.now out.old result out.new }
{
    let next = put_entries(entries, out);
    put_held(held, out, next)
}
