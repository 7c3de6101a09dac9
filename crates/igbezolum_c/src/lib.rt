#![tactic(auto)]

// What C links (libigbezolum.a): each function of `igbezolum` under its name, with its promise. include/igbezolum.h is the page for their callers.
ghost use Rattle.std.specs.Prelude.{◌≡◌};
ghost use Rattle.rules.specs.Answer.{buffers, given};
ghost use Rattle.rules.specs.Close.{close_given};
ghost use Rattle.rules.specs.Setup.{setup_given};
ghost use Rattle.rules.specs.Why.{why_given};
ghost use Rattle.rules.specs.Witness.{asked};
ghost use Rattle.texts.specs.ClaimsReading.{claims_given};
ghost use Rattle.texts.specs.GroupsPrinted.{PrintsGroups};
ghost use Rattle.texts.specs.GroupsReading.{groups_given};
ghost use Rattle.texts.specs.Printed.{Prints};
ghost use Rattle.texts.specs.Shorter.{shorter_given};
ghost use Rattle.texts.specs.WitnessPrinted.{PrintsWitness};
ghost use Rattle.igbezolum.specs.ClaimsLinked.{ChecksIn};
ghost use Rattle.igbezolum.specs.CloseLinked.{ClosesIn};
ghost use Rattle.igbezolum.specs.GroupsLinked.{ReadsGroupsIn};
ghost use Rattle.igbezolum.specs.Linked.{ReadsIn, RunsIn, SetsUpIn, WitnessesIn};
ghost use Rattle.igbezolum.specs.ShorterLinked.{ShortensIn};
ghost use Rattle.igbezolum.specs.Version.{version_number};
ghost use Rattle.igbezolum.specs.WhyLinked.{ExplainsIn};

use igbezolum::close::IgbClosing;
use igbezolum::group::IgbGroups;
use igbezolum::shorten::IgbShorter;
use igbezolum::verdict::IgbVerdict;
use igbezolum::why::IgbWhyReport;
use igbezolum::{IgbReading, IgbReport};

// Reads a text into the entries that are lent.
// Rules out: C for V; the count where the place belongs.
#[unsafe(no_mangle)]
pub extern "C" fn igb_read(text: &[u8], entries: &mut [i32]) -> IgbReading
    ensures { ReadsIn text.now entries.old result entries.new }
{
    igbezolum::igb_read(text, entries)
}

// The run over an entry list with literals held, into the statuses, the calls, the ways, the hints and the log that are lent.
// Rules out: the free counted as forced; a run under a budget that was not given.
#[unsafe(no_mangle)]
pub extern "C" fn igb_run(
    entries: &[i32],
    vars: u32,
    held: &[i32],
    budget: u32,
    chunk_limit: u32,
    status: &mut [u8],
    calls: &mut [u32],
    ways: &mut [u8],
    hints: &mut [u32],
    log: &mut [u32],
) -> IgbReport
    ensures { RunsIn (given entries.now vars held.now budget chunk_limit
        (buffers status.old calls.old ways.old hints.old log.old))
        result (buffers status.new calls.new ways.new hints.new log.new) }
{
    igbezolum::igb_run(
        entries,
        vars,
        held,
        budget,
        chunk_limit,
        status,
        calls,
        ways,
        hints,
        log,
    )
}

// One valid setup of an entry list with literals held, into the values that are lent.
// Rules out: a setup without a held literal; a call under a budget that was not given.
#[unsafe(no_mangle)]
pub extern "C" fn igb_setup(
    entries: &[i32],
    vars: u32,
    held: &[i32],
    budget: u32,
    values: &mut [u8],
) -> IgbReport
    ensures { SetsUpIn (setup_given entries.now vars held.now budget values.old) result values.new }
{
    igbezolum::igb_setup(entries, vars, held, budget, values)
}

// The printed table of a text with literals held, put at the start of the buffer that is lent; how many bytes it has.
// Rules out: one table for every text; a length that is not the table's.
#[unsafe(no_mangle)]
pub extern "C" fn igb_table(text: &[u8], held: &[i32], out: &mut [u8]) -> usize
    ensures { Prints text.now held.now out.old result out.new }
{
    igbezolum::igb_table(text, held, out)
}

// The first model of a run and the witness of a free variable, as literals into the two buffers that are lent.
// Rules out: the two models exchanged; the numbers of a run under another budget.
#[unsafe(no_mangle)]
pub extern "C" fn igb_witness(
    entries: &[i32],
    vars: u32,
    held: &[i32],
    budget: u32,
    chunk_limit: u32,
    variable: u32,
    first: &mut [i32],
    witness: &mut [i32],
) -> IgbReport
    ensures { WitnessesIn (asked entries.now vars held.now budget chunk_limit variable first.old
        witness.old) result first.new witness.new }
{
    igbezolum::pair::igb_witness(
        entries,
        vars,
        held,
        budget,
        chunk_limit,
        variable,
        first,
        witness,
    )
}

// The same for a text, printed: two lines, put at the start of the buffer that is lent; how many bytes they have.
// Rules out: the lines for another variable; a length that is not theirs.
#[unsafe(no_mangle)]
pub extern "C" fn igb_witness_text(text: &[u8], variable: u32, out: &mut [u8]) -> usize
    ensures { PrintsWitness text.now variable out.old result out.new }
{
    igbezolum::pair::igb_witness_text(text, variable, out)
}

// The shorter file of an entry list, into the text that is lent: a run, and the formula with what it has settled folded in.
// Rules out: budget and chunk limit exchanged; the free counted as forced.
#[unsafe(no_mangle)]
pub extern "C" fn igb_shorter(
    entries: &[i32],
    vars: u32,
    budget: u32,
    chunk_limit: u32,
    text: &mut [u8],
) -> IgbShorter
    ensures { ShortensIn (shorter_given entries.now vars budget chunk_limit text.old) result text.new }
{
    igbezolum::shorten::igb_shorter(entries, vars, budget, chunk_limit, text)
}

// What follows from an entry list with literals held by closing alone, into the values that are lent, and in how many rounds.
// Rules out: rounds and variables set exchanged; the closing of the list alone.
#[unsafe(no_mangle)]
pub extern "C" fn igb_close(
    entries: &[i32],
    vars: u32,
    held: &[i32],
    values: &mut [u8],
) -> IgbClosing
    ensures { ClosesIn (close_given entries.now vars held.now values.old) result values.new }
{
    igbezolum::close::igb_close(entries, vars, held, values)
}

// Which clauses of an entry list alone force a literal, into the marks that are lent, or a model that has it false, into the values.
// Rules out: calls and tries exchanged; the answer for the literal's negation.
#[unsafe(no_mangle)]
pub extern "C" fn igb_why(
    entries: &[i32],
    vars: u32,
    literal: i32,
    budget: u32,
    marks: &mut [u8],
    values: &mut [u8],
) -> IgbWhyReport
    ensures { ExplainsIn (why_given entries.now vars literal budget marks.old values.old)
        result marks.new values.new }
{
    igbezolum::why::igb_why(entries, vars, literal, budget, marks, values)
}

// Reads a file of groups into the entries and the sizes that are lent.
// Rules out: the number of groups for that of variables; the file's own clauses counted alone.
#[unsafe(no_mangle)]
pub extern "C" fn igb_read_groups(text: &[u8], entries: &mut [i32], sizes: &mut [u8]) -> IgbGroups
    ensures { ReadsGroupsIn (groups_given text.now entries.old sizes.old) result entries.new sizes.new }
{
    igbezolum::group::igb_read_groups(text, entries, sizes)
}

// The printed table of a file of groups, put at the start of the buffer that is lent; how many bytes it has.
// Rules out: one table for every text; a length that is not the table's.
#[unsafe(no_mangle)]
pub extern "C" fn igb_groups_table(text: &[u8], out: &mut [u8]) -> usize
    ensures { PrintsGroups text.now out.old result out.new }
{
    igbezolum::group::igb_groups_table(text, out)
}

// Whether a file of claims holds of an entry list.
// Rules out: 0 for a literal that is not forced; the answer where the place belongs.
#[unsafe(no_mangle)]
pub extern "C" fn igb_check_claims(entries: &[i32], vars: u32, text: &[u8]) -> IgbVerdict
    ensures { ChecksIn (claims_given entries.now vars text.now) result }
{
    igbezolum::verdict::igb_check_claims(entries, vars, text)
}

// The version as one number.
// Rules out: the number of another version.
#[unsafe(no_mangle)]
pub extern "C" fn igb_version() -> u32
    ensures { result ≡ version_number }
{
    igbezolum::version::igb_version()
}
