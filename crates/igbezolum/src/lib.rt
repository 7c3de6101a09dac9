#![tactic(auto)]

// The functions that C and Rust link, as a library: the reader, the run, one valid setup, what follows at once, why a literal is forced,
// two models that differ on a variable, the shorter file, the reader of groups, a check of claims, and the printed tables, each thin over its crate.
// They answer in the numbers of docs/RULES.md, "What comes back"; `igbezolum_c` exports each under its name (libigbezolum.a).
pub mod close;
pub mod group;
pub mod pair;
pub mod shorten;
pub mod verdict;
pub mod version;
pub mod why;

ghost use Rattle.std.specs.Prelude.{◌≡◌, ◌≤◌};
ghost use Rattle.rules.specs.Numbers.{max_entries, run_place};
ghost use Rattle.rules.specs.Answer.{given, buffers};
ghost use Rattle.texts.specs.Printed.{Prints};
ghost use Rattle.rules.specs.Setup.{setup_given};
ghost use Rattle.igbezolum.specs.Linked.{reading_numbers, report_numbers, ReadingFits, ReadsIn, RunsIn, SetsUpIn};

use backbone::Buffers;
use rules::numbers::Answer;

// What a reading returns, in numbers.
#[repr(C)]
#[derive(Clone, Copy)]
pub struct IgbReading {
    pub answer: u32,
    pub place: u32,
    pub vars: u32,
    pub clauses: u32,
    pub count: u32,
}

// What a run returns, in numbers.
#[repr(C)]
#[derive(Clone, Copy)]
pub struct IgbReport {
    pub answer: u32,
    pub place: u32,
    pub calls: u32,
    pub tries: u32,
    pub forced: u32,
    pub free: u32,
}

// No From, as the other functions that give C its numbers: a place has to fit 32 bits, which is required of whoever calls.
fn reading_numbers(reading: rules::Reading) -> IgbReading
    requires { ReadingFits reading }
    ensures { result ≡ reading_numbers reading }
{
    let read = reading.answer;
    IgbReading {
        answer: read.number(),
        place: read.place() as u32,
        vars: reading.vars,
        clauses: reading.clauses,
        count: reading.entries as u32,
    }
}

fn report_numbers(report: rules::Report) -> IgbReport
    requires { run_place report.answer ≤ max_entries }
    ensures { result ≡ report_numbers report }
{
    let answer = report.answer;
    IgbReport {
        answer: answer.number(),
        place: answer.place() as u32,
        calls: report.calls,
        tries: report.tries,
        forced: report.forced,
        free: report.free,
    }
}

// Reads a text into the entries that are lent.
// Rules out: C for V; the count where the place belongs.
pub fn igb_read(text: &[u8], entries: &mut [i32]) -> IgbReading
    ensures { ReadsIn text.now entries.old result entries.new }
{
    let reading = reader::read(text, entries);
    reading_numbers(reading)
}

// The run over an entry list with literals held, into the statuses, the calls, the ways, the hints and the log that are lent.
// Rules out: the free counted as forced; a run under a budget that was not given.
pub fn igb_run(
    entries: &[i32],
    vars: u32,
    held: &[i32],
    budget: u32,
    chunk_limit: u32,
    status: &mut [u8],
    calls: &mut [u32],
    ways: &mut [u8],
    hints: &mut [u32],
    log: &mut [u32],
) -> IgbReport
    ensures { RunsIn (given entries.now vars held.now budget chunk_limit
        (buffers status.old calls.old ways.old hints.old log.old))
        result (buffers status.new calls.new ways.new hints.new log.new) }
{
    let mut buffers = Buffers {
        status,
        calls,
        ways,
        hints,
        log,
    };
    let report = backbone::run(entries, vars, held, budget, chunk_limit, &mut buffers);
    report_numbers(report)
}

// One valid setup of an entry list with literals held, into the values that are lent.
// Rules out: a setup without a held literal; a call under a budget that was not given.
pub fn igb_setup(
    entries: &[i32],
    vars: u32,
    held: &[i32],
    budget: u32,
    values: &mut [u8],
) -> IgbReport
    ensures { SetsUpIn (setup_given entries.now vars held.now budget values.old) result values.new }
{
    let report = setup::setup(entries, vars, held, budget, values);
    report_numbers(report)
}

// The printed table of a text with literals held, put at the start of the buffer that is lent; how many bytes it has.
// Rules out: one table for every text; a length that is not the table's.
pub fn igb_table(text: &[u8], held: &[i32], out: &mut [u8]) -> usize
    ensures { Prints text.now held.now out.old result out.new }
{
    printed::print(text, held, out)
}
