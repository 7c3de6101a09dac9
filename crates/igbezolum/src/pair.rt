// Two models that differ on a variable (docs/RULES.md, "A witness to see"), in numbers and printed.
ghost use Rattle.rules.specs.Witness.{asked};
ghost use Rattle.texts.specs.WitnessPrinted.{PrintsWitness};
ghost use Rattle.igbezolum.specs.Linked.{WitnessesIn};

use crate::{IgbReport, report_numbers};

// The first model of a run and the witness of a free variable, as literals into the two buffers that are lent.
// Rules out: the two models exchanged; the numbers of a run under another budget.
pub fn igb_witness(
    entries: &[i32],
    vars: u32,
    held: &[i32],
    budget: u32,
    chunk_limit: u32,
    variable: u32,
    first: &mut [i32],
    witness: &mut [i32],
) -> IgbReport
    ensures { WitnessesIn (asked entries.now vars held.now budget chunk_limit variable first.old
        witness.old) result first.new witness.new }
{
    let report = witness::witness(
        entries,
        vars,
        held,
        budget,
        chunk_limit,
        variable,
        first,
        witness,
    );
    report_numbers(report)
}

// The same for a text, printed: two lines, put at the start of the buffer that is lent; how many bytes they have.
// Rules out: the lines for another variable; a length that is not theirs.
pub fn igb_witness_text(text: &[u8], variable: u32, out: &mut [u8]) -> usize
    ensures { PrintsWitness text.now variable out.old result out.new }
{
    witness_printed::print(text, variable, out)
}
