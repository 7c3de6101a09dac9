// The shorter file (docs/RULES.md, "The shorter file"): a run with no literal held, and the formula with what it has settled folded in, as
// text in a buffer that is lent.
#![tactic(auto)]

ghost use Rattle.std.specs.Prelude.{length, take, ◌≤◌};
ghost use Rattle.rules.specs.Meaning.{clauses};
ghost use Rattle.texts.specs.Plain.{plain};
ghost use Rattle.rules.specs.RunRefusals.{Accepted};
ghost use Rattle.texts.specs.Shorter.{folded, shorter_by, shorter_given, shorter_run, Shortens};
ghost use Rattle.buffers.specs.Put.{Put};
ghost use Rattle.backbone.specs.Lent.{lent, SameBuffers};
ghost use Rattle.shorter.specs.Made.{SettledOver, RoomOver, ValuesPut, AnswerOver, Lent, RunPut};

use backbone::Buffers;
use folded::{put_empty, put_folded};
use formula::starts::find_starts;
use rules::{Report, RunAnswer, ShorterReport};
use steps::chunk::fill_start;

// After 0 and 21, with room for the forced literals as values and for where the clauses start.
// Rules out: open literals folded in; the formula as it was.
// Required of: put_settled, with room of just the size.
fn put_values(
    text: &mut [u8],
    entries: &[i32],
    forced: u32,
    status: &[u8],
    values: &mut [u8],
    starts: &mut [u16],
) -> usize
    requires { SettledOver entries.now forced status.now text.old × RoomOver entries.now status.now values.old starts.old }
    ensures { ValuesPut entries.now status.now text.old starts.old
        result text.new values.new starts.new }
{
    fill_start(status, values);
    let count = find_starts(entries, starts);
    put_folded(text, entries, &starts[..count + 1], values, forced)
}

// The same, with the room made here.
// Rules out: one empty clause; the clauses that hold a forced literal.
// Required of: put_answer, after 0 and 21.
fn put_settled(text: &mut [u8], entries: &[i32], forced: u32, status: &[u8]) -> usize
    requires { SettledOver entries.now forced status.now text.old }
    ensures { Put 0 (plain (length status.now) (folded status.now (clauses entries.now)))
        text.old result text.new }
{
    let n = status.len();
    let mut values = [0u8; rules::MAX_VARS as usize];
    let mut starts = [0u16; rules::MAX_CLAUSES as usize + 1];
    put_values(text, entries, forced, status, &mut values[..n], &mut starts)
}

// The text that belongs to the answer of a run.
// Rules out: the clauses after 20; one empty clause after 21.
// Required of: put_run, for a run that is not refused.
fn put_answer(text: &mut [u8], entries: &[i32], report: Report, status: &[u8]) -> usize
    requires { AnswerOver entries.now report status.now text.old }
    ensures { Put 0 (plain (length status.now) (shorter_by report.answer status.now (clauses entries.now)))
        text.old result text.new }
{
    let answer = report.answer;
    if let RunAnswer::NoModel = answer {
        return put_empty(text, status.len() as u32);
    }
    put_settled(text, entries, report.forced, status)
}

// The text of a run whose statuses stand at the front of a buffer.
// Rules out: statuses behind those of the variables.
// Required of: put_run, for the statuses that the run has left.
fn put_front(text: &mut [u8], entries: &[i32], report: Report, status: &[u8], n: usize) -> usize
    requires { (n ≤ length status.now) × AnswerOver entries.now report (take n status.now) text.old }
    ensures { Put 0 (plain (length (take n status.now)) (shorter_by report.answer (take n status.now) (clauses entries.now)))
        text.old result text.new }
{
    put_answer(text, entries, report, &status[..n])
}

// The run and its text, with buffers for any run.
// Rules out: the text of another list; a run under another budget.
// Required of: made, with the buffers.
fn put_run(
    entries: &[i32],
    vars: u32,
    budget: u32,
    chunk_limit: u32,
    text: &mut [u8],
    buffers: &mut Buffers,
) -> ShorterReport
    requires { Lent (shorter_given entries.now vars budget chunk_limit text.old) (lent buffers.old) }
    ensures put { RunPut (shorter_given entries.now vars budget chunk_limit text.old) result (lent buffers.new) text.new }
    ensures same_reference { SameBuffers buffers.old buffers.new }
{
    let report = backbone::run(entries, vars, &entries[..0], budget, chunk_limit, buffers);
    let n = vars as usize;
    let length = put_front(text, entries, report, &mut *buffers.status, n);
    ShorterReport {
        run: report,
        length: length,
    }
}

// The same on a list that no rule refuses: the buffers are made here, for up to 256 variables.
// Rules out: a byte behind the text; the length of the buffer.
// Required of: shorter, after 10, 1, 11 and 12.
fn made(entries: &[i32], vars: u32, budget: u32, chunk_limit: u32, text: &mut [u8]) -> ShorterReport
    requires { Accepted (shorter_run (shorter_given entries.now vars budget chunk_limit text.old)) }
    ensures { Shortens (shorter_given entries.now vars budget chunk_limit text.old) result text.new }
{
    let mut status = [0u8; rules::MAX_VARS as usize];
    let mut calls = [0u32; rules::MAX_VARS as usize];
    let mut ways = [0u8; rules::MAX_VARS as usize];
    let mut hints = [0u32; rules::MAX_VARS as usize];
    let mut log = [0u32; rules::MAX_LOG];
    let mut buffers = Buffers {
        status: &mut status,
        calls: &mut calls,
        ways: &mut ways,
        hints: &mut hints,
        log: &mut log,
    };
    put_run(entries, vars, budget, chunk_limit, text, &mut buffers)
}

// The shorter file of an entry list: the run's numbers, and the length of the text. Every list, buffer and limit is answered; what is
// refused writes nothing.
// Rules out: the clauses as they were; a text that has other models.
pub fn shorter(
    entries: &[i32],
    vars: u32,
    budget: u32,
    chunk_limit: u32,
    text: &mut [u8],
) -> ShorterReport
    ensures { Shortens (shorter_given entries.now vars budget chunk_limit text.old) result text.new }
{
    let bad_limits = refusals::out_of_limits(vars, chunk_limit);
    let short = text.len() < rules::MAX_TEXT;
    if let Err(refusal) = refusals::refuse(bad_limits, short, entries, vars, &entries[..0]) {
        return ShorterReport {
            run: Report {
                answer: RunAnswer::Refused(refusal),
                calls: 0,
                tries: 0,
                forced: 0,
                free: 0,
            },
            length: 0,
        };
    }
    made(entries, vars, budget, chunk_limit, text)
}
