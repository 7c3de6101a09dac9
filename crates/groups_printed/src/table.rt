// The table of a file of groups (docs/RULES.md, "The printed groups"): read, run, put.
ghost use Rattle.std.specs.Prelude.{◌≡◌, length};
ghost use Rattle.rules.specs.Numbers.{max_entries};
ghost use Rattle.backbone.specs.Lent.{lent, SameBuffers};
ghost use Rattle.texts.specs.Groups.{max_groups};
ghost use Rattle.texts.specs.GroupsPrinted.{groups_table_of, groups_table_of_run, groups_table_of_list};
ghost use Rattle.buffers.specs.Put.{Put, Room};
ghost use Rattle.printed.specs.Table.{Sized};
ghost use Rattle.groups_printed.specs.Table.{ListReady, TableReady};

use crate::line::put_groups;
use backbone::Buffers;
use lines::line::{put_answer, put_refusal};
use rules::{GroupsAnswer, RunAnswer, TABLE_BUDGET, TABLE_CHUNK};

// The answer line, and a line for each value. After 20 there is no valid setup and nothing to say of a value.
// Rules out: the lines of the values after 20; none of them after 21.
// Required of: put_run, for a run that is over.
fn put_table(out: &mut [u8], sizes: &[u8], vars: u32, report: rules::Report, status: &[u8]) -> usize
    requires { TableReady sizes.now vars report status.now out.old }
    ensures { Put 0 (groups_table_of_run sizes.now report status.now) out.old result out.new }
{
    let next = put_answer(out, 0, vars, report);
    if let RunAnswer::NoModel = report.answer {
        return next;
    }
    put_groups(out, next, sizes, status)
}

// The run of an expanded list, with buffers of just the size, budget 1,000,000 and chunk limit 16, and its table.
// Rules out: the table under another budget; that under another chunk limit.
// Required of: put_list, with buffers of just the size.
fn put_run(out: &mut [u8], entries: &[i32], sizes: &[u8], vars: u32, buffers: &mut Buffers) -> usize
    requires { ListReady sizes.now vars entries.now out.old × Sized vars (lent buffers.old) }
    ensures put { Put 0 (groups_table_of_list sizes.now entries.now) out.old result out.new }
    ensures same_reference { SameBuffers buffers.old buffers.new }
{
    let none = [0i32; 1];
    let report = backbone::run(
        entries,
        vars,
        &none[..0],
        TABLE_BUDGET,
        TABLE_CHUNK,
        buffers,
    );
    put_table(out, sizes, vars, report, buffers.status)
}

// The table of an expanded list: the buffers are made here, for up to 256 variables.
// Rules out: the table of another list; a byte behind the table.
// Required of: put_text, for the list of an accepted file (groups_run_accepted).
fn put_list(out: &mut [u8], entries: &[i32], sizes: &[u8], vars: u32) -> usize
    requires { ListReady sizes.now vars entries.now out.old }
    ensures { Put 0 (groups_table_of_list sizes.now entries.now) out.old result out.new }
{
    let n = vars as usize;
    let mut status = [0u8; rules::MAX_VARS as usize];
    let mut calls = [0u32; rules::MAX_VARS as usize];
    let mut ways = [0u8; rules::MAX_VARS as usize];
    let mut hints = [0u32; rules::MAX_VARS as usize];
    let mut log = [0u32; rules::MAX_LOG];
    let mut buffers = Buffers {
        status: &mut status[..n],
        calls: &mut calls[..n],
        ways: &mut ways[..n],
        hints: &mut hints[..n],
        log: &mut log[..6 * (n + 1)],
    };
    put_run(out, entries, sizes, vars, &mut buffers)
}

// The table of a text: the line of its refusal, or the table of its expanded list.
// Rules out: a table for a refused text; the line of another refusal.
// Required of: print, by groups_table_bound.
pub fn put_text(out: &mut [u8], text: &[u8], entries: &mut [i32], sizes: &mut [u8]) -> usize
    requires { Room 0 (groups_table_of text.now) out.old × (length entries.old ≡ max_entries) × (length sizes.old ≡ max_groups) }
    ensures { Put 0 (groups_table_of text.now) out.old result out.new }
{
    let reading = groups::read_groups(text, entries, sizes);
    match reading.answer {
        GroupsAnswer::Accepted => {
            let count = reading.groups as usize;
            put_list(
                out,
                &entries[..reading.entries],
                &sizes[..count],
                reading.vars,
            )
        }
        answer => put_refusal(out, 0, answer),
    }
}
