// The backbone run: which literals every model contains, which variables are free (docs/RULES.md, "Run").
#![tactic(auto)]

ghost use Rattle.rules.specs.Answer.{given, Runs};
ghost use Rattle.backbone.specs.Lent.{lent, SameBuffers};

pub mod first;

// The buffers that a run fills.
#[derive(Drop)]
pub struct Buffers<'a> {
    pub status: &'a mut [u8],
    pub calls: &'a mut [u32],
    pub ways: &'a mut [u8],
    pub hints: &'a mut [u32],
    pub log: &'a mut [u32],
}

// A run (docs/RULES.md, "Run" and "What comes back"): for each of the variables 1 to vars, whether it is forced or free where the held literals
// are true, by which call and in which way, and which clause holds it; and a row for each call. Every list, held literals, all buffers and every
// limit are answered; what is refused writes nothing.
// Rules out: an honest first call and the rest marked free; a stopped call logged as none.
pub fn run(
    entries: &[i32],
    vars: u32,
    held: &[i32],
    budget: u32,
    chunk_limit: u32,
    buffers: &mut Buffers,
) -> rules::Report
    ensures runs { Runs (given entries.now vars held.now budget chunk_limit (lent buffers.old)) result (lent buffers.new) }
    ensures same_reference { SameBuffers buffers.old buffers.new }
{
    let bad_limits = refusals::out_of_limits(vars, chunk_limit);
    let short = refusals::too_short(
        vars,
        buffers.status.len(),
        buffers.calls.len(),
        buffers.ways.len(),
        buffers.hints.len(),
        buffers.log.len(),
    );
    let checked = refusals::refuse(bad_limits, short, entries, vars, held);
    match checked {
        Err(refusal) => rules::Report {
            answer: rules::RunAnswer::Refused(refusal),
            calls: 0,
            tries: 0,
            forced: 0,
            free: 0,
        },
        Ok(()) => {
            let n = vars as usize;
            let mut first = [0u8; rules::MAX_VARS as usize];
            first::held_run(
                entries,
                held,
                &mut first[..n],
                &mut buffers.status[..n],
                &mut buffers.calls[..n],
                &mut buffers.ways[..n],
                &mut buffers.hints[..n],
                &mut buffers.log[..6 * (n + 1)],
                calls::next::Limits {
                    budget: budget,
                    chunk: chunk_limit,
                },
            )
        }
    }
}
