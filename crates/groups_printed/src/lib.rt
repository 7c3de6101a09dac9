// The table of a file of groups (docs/RULES.md, "The printed groups"), put into a buffer that is lent.
#![tactic(auto)]

ghost use Rattle.texts.specs.GroupsPrinted.{PrintsGroups};

mod line;
mod table;

// Puts the table of a file of groups at the start of a buffer and answers how many bytes it has. No table of groups is longer than 4,096 bytes; in a
// shorter buffer nothing is written, and the answer is 0.
// Rules out: a value's line under the number of another group; a table in a buffer of 4,095 bytes.
// Stays beside its kin of the other printing crates: one function of what is put would take that one's contract as its parameter, longer
// than these lines.
#[tactic(auto, using(crate::proofs::TableLaws::prints_short))]
pub fn print(text: &[u8], out: &mut [u8]) -> usize
    ensures { PrintsGroups text.now out.old result out.new }
{
    if out.len() < rules::MAX_GROUPS_TABLE {
        return 0;
    }
    let mut entries = [0i32; rules::MAX_ENTRIES];
    let mut sizes = [0u8; rules::MAX_GROUPS];
    table::put_text(out, text, &mut entries, &mut sizes)
}
