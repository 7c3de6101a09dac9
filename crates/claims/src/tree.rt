// The trees of claims, docs/RULES.md, "Claims": the checker reads the tree for false, then the tree for true, by calling itself. The number
// of unset variables falls with each split. The values are lent, and are the same afterwards.
ghost use Rattle.std.specs.Prelude.{◌≡◌, pos, length};
ghost use Rattle.rules.specs.Lists.{all};
ghost use Rattle.rules.specs.Meaning.{LitUpTo, clauses};
ghost use Rattle.texts.specs.Claims.{is_false};
ghost use Rattle.texts.specs.ClaimsReading.{is_node};
ghost use Rattle.formula.specs.Clauses.{ClauseUpTo};
ghost use Rattle.formula.specs.Formula.{Formula};
ghost use Rattle.claims.specs.Steps.{NodeDue, TreeChecked, is_unset_at};

use crate::step::number_at;
use formula::clause::clause_at;
use formula::lit::{sign, var_of};
use formula::value::{byte_of, index_of};
use rules::{ClaimsAnswer, ClauseNo, Lit};

// Whether a literal of one of the variables is false.
// Rules out: true for an unset literal; true for -1 where variable 1 is false.
// Required of: is_all_false, by the literals of its clause.
fn is_false(l: Lit, values: &[u8]) -> bool
    requires { LitUpTo (length values.now) l.0 }
    ensures { result ≡ is_false values.now l.0 }
{
    let at = index_of(var_of(l));
    values[at] == byte_of(!sign(l))
}

// Whether all literals of a clause are false.
// Rules out: true where the last literal is unset; false for the empty clause.
// Required of: is_end, by clause_at_up_to.
fn is_all_false(clause: &[i32], values: &[u8]) -> bool
    requires { ClauseUpTo (length values.now) clause.now }
    ensures { result ≡ all (is_false values.now) clause.now }
{
    clause.iter().all(|l| is_false(Lit(*l), values))
}

// Whether n names a clause whose literals are all false.
// Rules out: true for 0; true for a clause above the last one.
// Required of: node_at, which requires it too.
fn is_end(entries: &[i32], starts: &[u16], values: &[u8], n: u32) -> bool
    requires { Formula (length values.now) entries.now starts.now }
    ensures { result ≡ is_node (clauses entries.now) values.now (pos n) }
{
    if n == 0 {
        return false;
    }
    if starts.len() <= n as usize {
        return false;
    }
    let clause = clause_at(entries, starts, &[], ClauseNo(n));
    is_all_false(clause, values)
}

// Whether the variable at an index is not set; one above V counts as set.
// Rules out: true for a variable that is true; true for one above V.
fn is_unset_at(values: &[u8], i: usize) -> bool
    ensures { result ≡ is_unset_at values.now i }
{
    if values.len() <= i {
        return false;
    }
    values[i] == 0
}

// What a tree begins with: an end, and the place behind it; or a split, with the index of its variable, and the place behind it.
#[derive(Clone, Copy)]
pub enum Node {
    End(usize),
    Split(usize, usize),
}

// The first number of a tree.
// Rules out: an end whose clause has an unset literal taken; a split on a set variable taken.
// Required of: check_tree, which requires it too.
fn node_at(
    entries: &[i32],
    starts: &[u16],
    text: &[u8],
    at: usize,
    values: &[u8],
) -> Result<Node, ClaimsAnswer>
    requires { Formula (length values.now) entries.now starts.now }
    ensures { NodeDue (clauses entries.now) text.now values.now at result }
{
    let spot = number_at(text, at)?;
    let entry = spot.entry;
    if entry.minus {
        let i = entry.number as usize - 1;
        if is_unset_at(values, i) {
            return Ok(Node::Split(i, spot.to));
        }
    } else if is_end(entries, starts, values, entry.number) {
        return Ok(Node::End(spot.to));
    }
    Err(ClaimsAnswer::Rejected(spot.from))
}

// A tree, under the values: where it ends, or the answer. They are the same afterwards.
// Rules out: the tree for true read first; a variable left set behind its subtrees.
// Required of: claim::check_claim, which requires it too.
pub fn check_tree(
    entries: &[i32],
    starts: &[u16],
    text: &[u8],
    at: usize,
    values: &mut [u8],
) -> Result<usize, ClaimsAnswer>
    requires { Formula (length values.old) entries.now starts.now }
    ensures { TreeChecked (clauses entries.now) text.now at values.old result values.new }
{
    let node = node_at(entries, starts, text, at, values)?;
    match node {
        Node::End(to) => Ok(to),
        Node::Split(i, to) => {
            values[i] = 1;
            match check_tree(entries, starts, text, to, values) {
                Err(answer) => {
                    values[i] = 0;
                    Err(answer)
                }
                Ok(next) => {
                    values[i] = 2;
                    let last = check_tree(entries, starts, text, next, values);
                    values[i] = 0;
                    last
                }
            }
        }
    }
}
