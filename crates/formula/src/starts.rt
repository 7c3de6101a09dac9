// Where the clauses start in the entry list, computed once a run.
ghost use Rattle.formula.specs.Starts.{RoomFor, StartsFound};

// Writes where each clause starts, with one more for the end, and returns how many clauses there are. The rest of the buffer
// stays.
// Rules out: starts at the clauses' closing zeros; a cleared rest.
// Required of: backbone::first::accepted_run, setup::on_list and reason, for the list that they are given.
pub fn find_starts(entries: &[i32], starts: &mut [u16]) -> usize
    requires { RoomFor entries.now starts.old }
    ensures { StartsFound entries.now starts.old result starts.new }
{
    starts[0] = 0;
    let mut clauses = 0;
    for (i, entry) in entries.iter().enumerate() {
        if *entry == 0 {
            clauses += 1;
            starts[clauses] = i as u16 + 1;
        }
    }
    clauses
}
