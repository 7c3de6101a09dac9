// The table of a text (docs/RULES.md, "The printed table"): read, run, put.
ghost use Rattle.std.specs.Prelude.{◌≡◌, length};
ghost use Rattle.rules.specs.Numbers.{max_entries};
ghost use Rattle.rules.specs.Answer.{given};
ghost use Rattle.backbone.specs.Lent.{lent, SameBuffers};
ghost use Rattle.texts.specs.Printed.{table_of, table_of_run, table_budget, table_chunk};
ghost use Rattle.buffers.specs.Put.{Put, Room};
ghost use Rattle.printed.specs.Table.{table_of_list, ListReady, Sized, TableReady, RunPut, TextPut};

use backbone::Buffers;
use lines::line::{put_answer, put_lines, put_refusal};
use rules::{ReadAnswer, RunAnswer, TABLE_BUDGET, TABLE_CHUNK};

// The answer line, and a line for each variable. After 20 there is no model and nothing to say of a variable; a refused run has one line.
// Rules out: the lines of the variables after 20; none of them after 21.
// Required of: put_run, for a run that is over.
fn put_table(
    out: &mut [u8],
    vars: u32,
    report: rules::Report,
    status: &[u8],
    hints: &[u32],
) -> usize
    requires { TableReady vars report status.now hints.now out.old }
    ensures { Put 0 (table_of_run vars report status.now hints.now) out.old result out.new }
{
    match report.answer {
        RunAnswer::Refused(refusal) => put_refusal(out, 0, refusal),
        RunAnswer::NoModel => put_answer(out, 0, vars, report),
        RunAnswer::Settled | RunAnswer::Stopped => {
            let next = put_answer(out, 0, vars, report);
            put_lines(out, next, status, hints)
        }
    }
}

// The run of an entry list with literals held, with buffers of just the size, budget 1,000,000 and chunk limit 16, and its table.
// Rules out: the table under another budget; that under another chunk limit.
// Required of: put_list, with buffers of just the size.
fn put_run(out: &mut [u8], entries: &[i32], vars: u32, held: &[i32], buffers: &mut Buffers) -> usize
    requires { ListReady vars entries.now held.now out.old × Sized vars (lent buffers.old) }
    ensures put { RunPut (given entries.now vars held.now table_budget table_chunk (lent buffers.old)) out.old
        result (lent buffers.new) out.new }
    ensures same_reference { SameBuffers buffers.old buffers.new }
{
    let report = backbone::run(entries, vars, held, TABLE_BUDGET, TABLE_CHUNK, buffers);
    // Lent as `&mut`: the borrow checker covers no two `&` through one `&mut`.
    put_table(out, vars, report, &mut *buffers.status, &mut *buffers.hints)
}

// The table of an entry list: the buffers are made here, for up to 256 variables.
// Rules out: the table of another list; a byte behind the table.
// Required of: put_text, for the list of an accepted text (table_formed).
fn put_list(out: &mut [u8], entries: &[i32], vars: u32, held: &[i32]) -> usize
    requires { ListReady vars entries.now held.now out.old }
    ensures { Put 0 (table_of_list vars entries.now held.now) out.old result out.new }
{
    let n = vars as usize;
    let mut status = [0u8; rules::MAX_VARS as usize];
    let mut calls = [0u32; rules::MAX_VARS as usize];
    let mut ways = [0u8; rules::MAX_VARS as usize];
    let mut hints = [0u32; rules::MAX_VARS as usize];
    let mut log = [0u32; rules::MAX_LOG];
    let mut buffers = Buffers {
        status: &mut status[..n],
        calls: &mut calls[..n],
        ways: &mut ways[..n],
        hints: &mut hints[..n],
        log: &mut log[..6 * (n + 1)],
    };
    put_run(out, entries, vars, held, &mut buffers)
}

// The table of a text: the line of its refusal, or the table of its entries with the held literals.
// Rules out: a table for a refused text; the line of another refusal.
// Required of: print, by table_bound.
#[tactic(auto, using(crate::proofs::TableLaws::list_long, crate::proofs::TableLaws::list_table))]
pub fn put_text(out: &mut [u8], text: &[u8], held: &[i32], entries: &mut [i32]) -> usize
    requires { Room 0 (table_of text.now held.now) out.old × (length entries.old ≡ max_entries) }
    ensures { TextPut text.now held.now entries.old out.old
        result entries.new out.new }
{
    let reading = reader::read(text, entries);
    match reading.answer {
        ReadAnswer::Accepted => put_list(out, &entries[..reading.entries], reading.vars, held),
        answer => put_refusal(out, 0, answer),
    }
}
