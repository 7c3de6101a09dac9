// The table of a text (docs/RULES.md, "The printed table"), put into a buffer that is lent.
#![tactic(auto)]

ghost use Rattle.texts.specs.Printed.{Prints};

mod table;

// Puts the table of a text, with literals held, at the start of a buffer and answers how many bytes it has. No table is longer than 9,216 bytes; in a
// shorter buffer nothing is written, and the answer is 0.
// Rules out: one table for every text; a table in a buffer of 9,215 bytes.
// Stays beside its kin of the other printing crates: one function of what is put would take that one's contract as its parameter, longer
// than these lines.
#[tactic(auto, using(crate::proofs::TableLaws::prints_short))]
pub fn print(text: &[u8], held: &[i32], out: &mut [u8]) -> usize
    ensures { Prints text.now held.now out.old result out.new }
{
    if out.len() < rules::MAX_TABLE {
        return 0;
    }
    let mut entries = [0i32; rules::MAX_ENTRIES];
    table::put_text(out, text, held, &mut entries)
}
