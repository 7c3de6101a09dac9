// Room for a board, which is made of arrays of fixed sizes: what is in use of the values and of the keys is cut off once, where the board
// is lent, so that a call passes on one word for all of it, and a level of the search takes little of the stack.
ghost use Rattle.std.specs.Prelude.{length, take};
ghost use Rattle.board.specs.Begins.{Begun};
ghost use Rattle.search.specs.Rooms.{BoardKept, BeginIn};

use board::begin::begin;
use board::chain::Chains;
use board::parts::Board;

// The literals of all variables, by number.
pub const MAX_CODES: usize = 2 * rules::MAX_VARS as usize;
// Where the list of each literal starts, with one more for the end.
pub const MAX_PARTS: usize = MAX_CODES + 1;
// Blocks of 32 clauses, the constraint among them.
pub const MAX_BLOCKS: usize = rules::MAX_STARTS / 32 + 1;
// The literals that are set, and how many.
pub const MAX_TRAIL: usize = rules::MAX_VARS as usize + 1;

// The board of a run, kept between its calls: who holds a literal, the marks of the constraint, and what changes in a call.
#[derive(Drop)]
pub struct Room<'a> {
    pub lists: &'a [u16],
    pub holders: &'a [u16],
    pub marks: &'a mut [u8],
    pub board: Board<'a>,
}

// Makes the board of a list in the room: it shows no value, and has an empty constraint. The hot blocks are blank before, and the chains
// are gone behind it.
// Rules out: marks that an older run has left; a board that shows a value.
// Required of: whole::whole_call, whole_close and backbone::first::room_for_values, with blank blocks.
pub fn begin_in(
    entries: &[i32],
    starts: &[u16],
    lists: &mut [u16; MAX_PARTS],
    holders: &mut [u16; rules::MAX_LIST],
    marks: &mut [u8; MAX_CODES],
    values: &mut [u8; rules::MAX_VARS as usize],
    keys: &mut [u32; rules::MAX_STARTS],
    hot: &mut [u16; MAX_BLOCKS],
    trail: &mut [u16; MAX_TRAIL],
    vars: usize,
)
    requires { BeginIn vars entries.now starts.now hot.old }
    ensures begun { Begun entries.now vars lists.new holders.new marks.new
        (take vars values.new) (take (length starts.now) keys.new) hot.new trail.new }
    ensures kept { BoardKept vars entries.now lists.new holders.new marks.new
        (take vars values.new) (take (length starts.now) keys.new) hot.new trail.new }
{
    let mut heads = [0u16; MAX_CODES];
    let mut nexts = [0u16; rules::MAX_LIST];
    let mut owners = [0u16; rules::MAX_LIST];
    let mut chains = Chains {
        heads: &mut heads,
        nexts: &mut nexts,
        owners: &mut owners,
    };
    let count = starts.len();
    begin(
        entries,
        &mut chains,
        lists,
        holders,
        marks,
        &mut values[..vars],
        &mut keys[..count],
        hot,
        trail,
        count - 1,
    );
}
