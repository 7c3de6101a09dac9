// The answer for a text and a variable (docs/RULES.md, "The printed witness"): read, ask, put.
ghost use Rattle.std.specs.Prelude.{◌≡◌, [], length};
ghost use Rattle.rules.specs.Numbers.{max_entries};
ghost use Rattle.texts.specs.Printed.{table_budget, table_chunk};
ghost use Rattle.rules.specs.Witness.{asked};
ghost use Rattle.texts.specs.WitnessPrinted.{witness_asked, witness_text_of_asked, witness_text_of};
ghost use Rattle.buffers.specs.Put.{Put, Room};
ghost use Rattle.witness_printed.specs.Pair.{AnswerReady, AnswerPut, ListReady, Sized, AskedPut, TextPut};

use crate::pair::put_pair;
use lines::line::put_refusal;
use rules::{ReadAnswer, Report, RunAnswer, TABLE_BUDGET, TABLE_CHUNK};

// What is printed for an answer: the refusal alone if it is one, else both models.
// Rules out: models where the variable is not free; the line of another refusal.
// Required of: put_asked, for what was answered.
fn put_answer(
    out: &mut [u8],
    report: Report,
    first: &[i32],
    witness: &[i32],
    bits: &mut [u8],
) -> usize
    requires { AnswerReady report first.now witness.now bits.old out.old }
    ensures { AnswerPut report first.now witness.now bits.old out.old
        result bits.new out.new }
{
    match report.answer {
        RunAnswer::Settled | RunAnswer::NoModel | RunAnswer::Stopped => {
            put_pair(out, first, witness, bits)
        }
        RunAnswer::Refused(refusal) => put_refusal(out, 0, refusal),
    }
}

// The answer for an entry list with buffers of just the size, budget 1,000,000 and chunk limit 16.
// Rules out: the answer under another budget; that for another variable.
// Required of: put_list, with buffers of just the size.
fn put_asked(
    out: &mut [u8],
    entries: &[i32],
    vars: u32,
    variable: u32,
    first: &mut [i32],
    witness: &mut [i32],
    bits: &mut [u8],
) -> usize
    requires { ListReady vars entries.now variable out.old × Sized vars first.old witness.old bits.old }
    ensures { AskedPut (asked entries.now vars [] table_budget table_chunk variable first.old witness.old)
        bits.old out.old result first.new witness.new bits.new out.new }
{
    let report = witness::witness(
        entries,
        vars,
        &entries[..0],
        TABLE_BUDGET,
        TABLE_CHUNK,
        variable,
        first,
        witness,
    );
    put_answer(out, report, first, witness, bits)
}

// The answer for an entry list: the buffers are made here, for up to 256 variables.
// Rules out: the answer for another list; a byte behind the answer.
// Required of: put_text, for the list of an accepted text.
fn put_list(out: &mut [u8], entries: &[i32], vars: u32, variable: u32) -> usize
    requires { ListReady vars entries.now variable out.old }
    ensures { Put 0 (witness_text_of_asked (witness_asked vars entries.now variable)) out.old result out.new }
{
    let n = vars as usize;
    let mut first = [0i32; rules::MAX_VARS as usize];
    let mut witness = [0i32; rules::MAX_VARS as usize];
    let mut bits = [0u8; rules::MAX_VARS as usize];
    put_asked(
        out,
        entries,
        vars,
        variable,
        &mut first[..n],
        &mut witness[..n],
        &mut bits[..n],
    )
}

// The answer for a text: the line of its refusal, or the answer for its entries.
// Rules out: models for a refused text; the line of another refusal.
// Required of: print, by witness_bound.
pub fn put_text(out: &mut [u8], text: &[u8], variable: u32, entries: &mut [i32]) -> usize
    requires { Room 0 (witness_text_of text.now variable) out.old × (length entries.old ≡ max_entries) }
    ensures { TextPut text.now variable entries.old out.old result entries.new out.new }
{
    let reading = reader::read(text, entries);
    match reading.answer {
        ReadAnswer::Accepted => put_list(out, &entries[..reading.entries], reading.vars, variable),
        answer => put_refusal(out, 0, answer),
    }
}
