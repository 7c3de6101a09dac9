// Who holds a literal, found in one pass over the entries from the last to the first: a chain of cells for each literal.
ghost use Rattle.std.specs.Prelude.{List, ℕ};
ghost use Rattle.board.specs.Chains.{SameChains, LinkAsked, Links, LinkAllAsked, LinkedAll, Chain, PutAsked, ChainPut, PutAllAsked, AllPut, IndexAsked};
ghost use Rattle.rules.specs.Meaning.{clauses};
ghost use Rattle.board.specs.Holders.{Holders};

use crate::code::code_of;
use rules::Lit;

// Chains of cells: for each literal the first cell of its chain, and for each cell the next one, and the clause that holds the literal.
#[derive(Drop)]
pub struct Chains<'a> {
    pub heads: &'a mut [u16],
    pub nexts: &'a mut [u16],
    pub owners: &'a mut [u16],
}

impl<'a> Chains<'a> {
    // Writes all chains out, one behind the other, and where each starts, with one more for the end.
    // Rules out: a part that overlaps the next; no end for the last one.
    // Required of: build_index, where no more is linked than there are entries.
    pub fn put_all(&self, starts: &mut [u16], holders: &mut [u16], codes: usize)
        requires { PutAllAsked codes self.now.heads.now self.now.nexts.now self.now.owners.now starts.old holders.old }
        ensures { AllPut codes self.now.heads.now self.now.nexts.now self.now.owners.now starts.new holders.new }
    {
        put_all(self.heads, self.nexts, self.owners, starts, holders, codes);
    }
}

// Puts clause c in front of the chain of literal k as cell m, unless it is there already, and returns the number of cells.
// Rules out: a clause twice in a chain; a cell that is counted and not linked.
// Required of: link_all, with a cell left for each entry.
pub fn link(chains: &mut Chains, m: usize, k: usize, c: u16) -> usize
    requires { LinkAsked k m chains.old.heads.now chains.old.nexts.now chains.old.owners.now }
    ensures done { Links k c m chains.old.heads.now chains.old.nexts.now chains.old.owners.now result
        chains.new.heads.now chains.new.nexts.now chains.new.owners.now }
    ensures same { SameChains chains.old chains.new }
{
    let head = chains.heads[k];
    if head != 0 {
        let j = head as usize - 1;
        if chains.owners[j] == c {
            return m;
        }
    }
    chains.owners[m] = c;
    chains.nexts[m] = head;
    chains.heads[k] = m as u16 + 1;
    m + 1
}

// Links every entry of a formula of `vars` variables and `count` clauses, and returns the number of cells.
// Rules out: the literals behind the last 0; a clause's index one too great.
// Required of: build_index, which requires it too.
pub fn link_all(entries: &[i32], chains: &mut Chains, vars: usize, count: usize) -> usize
    requires { LinkAllAsked vars count entries.now chains.old.heads.now chains.old.nexts.now chains.old.owners.now }
    ensures done { LinkedAll vars entries.now result chains.new.heads.now chains.new.nexts.now chains.new.owners.now }
    ensures same { SameChains chains.old chains.new }
{
    let mut m = 0;
    let mut c = count;
    for e in (0..entries.len()).rev() {
        let entry = entries[e];
        if entry == 0 {
            c -= 1;
        } else if c < count {
            m = link(chains, m, code_of(Lit(entry)), c as u16);
        }
    }
    m
}

// Writes the owners along a chain from `at` on, and returns the index behind the last one.
// Rules out: the chain's last owner left out; the owners from the last to the first.
// Required of: put_all, with room for the chain.
pub fn put_chain(
    owners: &[u16],
    nexts: &[u16],
    holders: &mut [u16],
    head: usize,
    at: usize,
) -> usize
    requires { PutAsked owners.now nexts.now head at holders.old }
    ensures { (is : List ℕ) → Chain owners.now nexts.now head is → ChainPut is at holders.old result
        holders.new }
{
    let mut h = head;
    let mut k = at;
    // Stays a `while`: each cell says which one is next.
    while 0 < h {
        let j = h - 1;
        holders[k] = owners[j];
        h = nexts[j] as usize;
        k += 1;
    }
    k
}

// Writes all chains out, one behind the other, and where each starts, with one more for the end.
// Rules out: a part that overlaps the next; no end for the last one.
// Required of: Chains::put_all, which requires it too.
pub fn put_all(
    heads: &[u16],
    nexts: &[u16],
    owners: &[u16],
    starts: &mut [u16],
    holders: &mut [u16],
    codes: usize,
)
    requires { PutAllAsked codes heads.now nexts.now owners.now starts.old holders.old }
    ensures { AllPut codes heads.now nexts.now owners.now starts.new holders.new }
{
    starts[0] = 0;
    let mut at = 0;
    for k in 0..codes {
        at = put_chain(owners, nexts, holders, heads[k] as usize, at);
        starts[k + 1] = at as u16;
    }
}

// The index of who holds a literal. The heads are blank before.
// Rules out: a clause twice in a list; a list that is not ascending.
// Required of: begin::begin, which requires it too.
pub fn build_index(
    entries: &[i32],
    chains: &mut Chains,
    starts: &mut [u16],
    holders: &mut [u16],
    vars: usize,
    count: usize,
)
    requires { IndexAsked vars count entries.now chains.old.heads.now chains.old.nexts.now chains.old.owners.now starts.old holders.old }
    ensures done { Holders vars (clauses entries.now) starts.new holders.new }
    ensures same { SameChains chains.old chains.new }
{
    link_all(entries, chains, vars, count);
    chains.put_all(starts, holders, 2 * vars);
}
