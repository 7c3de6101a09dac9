// The lines of a table (docs/RULES.md, "The printed table"), each ended by LF.
ghost use Rattle.std.specs.Prelude.{◌+◌, ◌≤◌};
ghost use Rattle.texts.specs.Printed.{refused_line, answer_line, status_words, status_lines};
ghost use Rattle.buffers.specs.Put.{Put, Room};
ghost use Rattle.lines.specs.Lines.{status_line, count_fields, end_fields, LinesOver};

use buffers::put::{put_byte, put_decimal, put_field, put_word};
use rules::numbers::Answer;

// The line of a refusal, by its number and its place.
// Rules out: number and place exchanged; a line without LF.
// Required of: put_refusal, whose room is the whole line's.
pub fn put_refused(out: &mut [u8], at: usize, number: u32, place: usize) -> usize
    requires { Room at (refused_line number place) out.old }
    ensures { Put at (refused_line number place) out.old result out.new }
{
    let behind_number = put_field(out, at, b"refused ", number as usize);
    let behind_place = put_field(out, behind_number, b" place ", place);
    put_byte(out, behind_place, 10)
}

// The line of a refusal, whoever refuses.
// Rules out: the line of another answer; the place of another.
// Required of: printed::table::put_text, whose room is the whole table's.
pub fn put_refusal<A: Answer + Copy>(out: &mut [u8], at: usize, answer: A) -> usize
    requires { Room at (refused_line (A.number_of answer) (A.place_of answer)) out.old }
    ensures { Put at (refused_line (A.number_of answer) (A.place_of answer)) out.old result out.new }
{
    put_refused(out, at, answer.number(), answer.place())
}

// The first three numbers of the answer line.
// Rules out: calls and tries exchanged; a number left out.
// Required of: put_answer and why_printed::line::put_first, whose room is the whole line's.
pub fn put_counts(out: &mut [u8], at: usize, number: u32, calls: u32, tries: u32) -> usize
    requires { Room at (count_fields number calls tries) out.old }
    ensures { Put at (count_fields number calls tries) out.old result out.new }
{
    let behind_number = put_field(out, at, b"answer ", number as usize);
    let behind_calls = put_field(out, behind_number, b" calls ", calls as usize);
    put_field(out, behind_calls, b" tries ", tries as usize)
}

// The last three numbers of the answer line, and its end.
// Rules out: forced and free exchanged; a line without LF.
// Required of: put_answer, whose room is the whole line's.
fn put_ends(out: &mut [u8], at: usize, forced: u32, free: u32, opens: u32) -> usize
    requires { Room at (end_fields forced free opens) out.old }
    ensures { Put at (end_fields forced free opens) out.old result out.new }
{
    let behind_forced = put_field(out, at, b" forced ", forced as usize);
    let behind_free = put_field(out, behind_forced, b" free ", free as usize);
    let behind_open = put_field(out, behind_free, b" open ", opens as usize);
    put_byte(out, behind_open, 10)
}

// The answer line: the returned numbers, and how many variables are open, which is V less both.
// Rules out: V less the forced for open; the place beside the number.
// Required of: printed::table::put_table, whose room is the whole table's.
pub fn put_answer(out: &mut [u8], at: usize, vars: u32, report: rules::Report) -> usize
    requires { Room at (answer_line vars report) out.old × (report.forced + report.free ≤ vars) }
    ensures { Put at (answer_line vars report) out.old result out.new }
{
    let answer = report.answer;
    let number = answer.number();
    let behind_counts = put_counts(out, at, number, report.calls, report.tries);
    let opens = vars - report.forced - report.free;
    put_ends(out, behind_counts, report.forced, report.free, opens)
}

// What a status byte says, and where it says forced the hint.
// Rules out: on and off exchanged; a hint behind free.
// Required of: put_variable, whose room is the whole line's.
fn put_status(out: &mut [u8], at: usize, status: u8, hint: u32) -> usize
    requires { Room at (status_words status hint) out.old }
    ensures { Put at (status_words status hint) out.old result out.new }
{
    if status == 0 {
        return put_word(out, at, b" open");
    }
    if status == 1 {
        return put_word(out, at, b" free");
    }
    if status == 2 {
        return put_field(out, at, b" forced on held by clause ", hint as usize);
    }
    put_field(out, at, b" forced off held by clause ", hint as usize)
}

// The line of a variable.
// Rules out: the number less one; a line without LF.
// Required of: put_lines, whose room is that of all lines.
fn put_variable(out: &mut [u8], at: usize, v: rules::Var, status: u8, hint: u32) -> usize
    requires { Room at (status_line v.0 status hint) out.old }
    ensures { Put at (status_line v.0 status hint) out.old result out.new }
{
    let behind_variable = put_decimal(out, at, v.0 as usize);
    let behind_status = put_status(out, behind_variable, status, hint);
    put_byte(out, behind_status, 10)
}

// A line for each variable.
// Rules out: the last variable left out; lines numbered from 0.
// Required of: printed::table::put_table, whose room is the whole table's.
pub fn put_lines(out: &mut [u8], at: usize, status: &[u8], hints: &[u32]) -> usize
    requires { LinesOver at status.now hints.now out.old }
    ensures { Put at (status_lines 1 status.now hints.now) out.old result out.new }
{
    let mut next = at;
    for (i, &byte) in status.iter().enumerate() {
        next = put_variable(out, next, rules::Var(i as u32 + 1), byte, hints[i]);
    }
    next
}
