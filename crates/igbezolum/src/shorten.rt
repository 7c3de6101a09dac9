// The shorter file, for C and Rust: thin over `shorter`, in the numbers of docs/RULES.md, "What comes back".
ghost use Rattle.std.specs.Prelude.{◌≡◌};
ghost use Rattle.texts.specs.Shorter.{shorter_given};
ghost use Rattle.igbezolum.specs.ShorterLinked.{shorter_numbers, ShorterFits, ShortensIn};

use rules::numbers::Answer;

// What is returned, in numbers: those of the run, and the length of the text.
#[repr(C)]
#[derive(Clone, Copy)]
pub struct IgbShorter {
    pub answer: u32,
    pub place: u32,
    pub calls: u32,
    pub tries: u32,
    pub forced: u32,
    pub free: u32,
    pub length: u32,
}

fn shorter_numbers(report: rules::ShorterReport) -> IgbShorter
    requires { ShorterFits report }
    ensures { result ≡ shorter_numbers report }
{
    let run = report.run;
    let answer = run.answer;
    IgbShorter {
        answer: answer.number(),
        place: answer.place() as u32,
        calls: run.calls,
        tries: run.tries,
        forced: run.forced,
        free: run.free,
        length: report.length as u32,
    }
}

// The shorter file of an entry list, into the text that is lent: a run, and the formula with what it has settled folded in.
// Rules out: budget and chunk limit exchanged; the free counted as forced.
pub fn igb_shorter(
    entries: &[i32],
    vars: u32,
    budget: u32,
    chunk_limit: u32,
    text: &mut [u8],
) -> IgbShorter
    ensures { ShortensIn (shorter_given entries.now vars budget chunk_limit text.old) result text.new }
{
    let report = shorter::shorter(entries, vars, budget, chunk_limit, text);
    shorter_numbers(report)
}
