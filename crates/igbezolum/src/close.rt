// What follows at once, for C and Rust: thin over `closing`, in the numbers of docs/RULES.md, "What comes back".
ghost use Rattle.std.specs.Prelude.{◌≡◌, ◌≤◌};
ghost use Rattle.rules.specs.Numbers.{max_entries};
ghost use Rattle.rules.specs.Close.{close_place, close_given};
ghost use Rattle.igbezolum.specs.CloseLinked.{close_numbers, ClosesIn};

use rules::numbers::Answer;

// What is returned, in numbers.
#[repr(C)]
#[derive(Clone, Copy)]
pub struct IgbClosing {
    pub answer: u32,
    pub place: u32,
    pub rounds: u32,
    pub set: u32,
}

fn close_numbers(report: rules::CloseReport) -> IgbClosing
    requires { close_place report.answer ≤ max_entries }
    ensures { result ≡ close_numbers report }
{
    let answer = report.answer;
    IgbClosing {
        answer: answer.number(),
        place: answer.place() as u32,
        rounds: report.rounds,
        set: report.set,
    }
}

// What follows from an entry list with literals held by closing alone, into the values that are lent, and in how many rounds.
// Rules out: rounds and variables set exchanged; the closing of the list alone.
pub fn igb_close(entries: &[i32], vars: u32, held: &[i32], values: &mut [u8]) -> IgbClosing
    ensures { ClosesIn (close_given entries.now vars held.now values.old) result values.new }
{
    let report = closing::close(entries, vars, held, values);
    close_numbers(report)
}
