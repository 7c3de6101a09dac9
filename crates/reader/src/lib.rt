// Text to entries: docs/RULES.md, "The text" and the reader's part of "What comes back". From front to back, with no store but
// the buffer that is lent: a line is found and judged, then token by token is found, judged and stored.
#![tactic(auto)]

mod answer;
mod header;
mod line;
pub mod next;
mod number;
pub mod scan;
mod skip;
pub mod store;
pub mod token;
mod tokens;

ghost use Rattle.std.specs.Prelude.{◌≤◌, length};
ghost use Rattle.rules.specs.Numbers.{max_entries};
ghost use Rattle.texts.specs.Text.{lines_of};
ghost use Rattle.texts.specs.Reading.{Reads, judge_lines};
ghost use Rattle.reader.specs.Lines.{judge_line_at};
ghost use Rattle.reader.specs.Stores.{Stores, reading};

use answer::refused;
use header::header_of;
use line::first_line;
use rules::{MAX_CLAUSES, MAX_ENTRIES, MAX_TEXT, MAX_VARS, ReadAnswer, Reading};
use store::clear;
use tokens::read_tokens;

// The line from `from` up to `to` has to be the header: 3 before 4, then the tokens behind it.
fn read_header(
    text: &[u8],
    from: usize,
    to: usize,
    entries: &mut [i32],
) -> Result<Reading, ReadAnswer>
    requires { (from ≤ to) × (to ≤ length text.now) × (max_entries ≤ length entries.old) }
    ensures { Stores (judge_line_at text.now from to) entries.old (reading result) entries.new }
{
    let Some(h) = header_of(&text[from..to]) else {
        return Err(ReadAnswer::BadHeader(from));
    };
    if MAX_VARS < h.vars || MAX_CLAUSES < h.clauses {
        return Err(ReadAnswer::LargeHeader(from));
    }
    read_tokens(text, h, to, entries)
}

// From the first line on. What stands in the buffer behind the entries that are counted is left to the caller.
fn read_text(text: &[u8], entries: &mut [i32]) -> Result<Reading, ReadAnswer>
    requires { max_entries ≤ length entries.old }
    ensures { Stores (judge_lines text.now (lines_of text.now)) entries.old (reading result) entries.new }
{
    let Some((from, to)) = first_line(text) else {
        return Err(ReadAnswer::BadHeader(text.len()));
    };
    read_header(text, from, to, entries)
}

// Reads a text into the entries that are lent: number and place, V, C and the entry count; the list and then zeros, or zeros alone.
// Rules out: entries left in the buffer after 3 to 9; `-0` as a closing zero.
pub fn read(text: &[u8], entries: &mut [i32]) -> Reading
    ensures { Reads text.now entries.old result entries.new }
{
    if entries.len() < MAX_ENTRIES {
        return refused(ReadAnswer::ShortBuffer);
    }
    if MAX_TEXT < text.len() {
        return refused(ReadAnswer::LongText);
    }
    let r = read_text(text, entries).unwrap_or_else(refused);
    clear(entries, r.entries);
    r
}
