// The rows of the log (docs/RULES.md, "What comes back").
ghost use Rattle.std.specs.Prelude.{◌≡◌};
ghost use Rattle.steps.specs.Row.{RowOver, with_row};

// What a row says of a call: what it ended with, the chunk taken, what compare and flip dropped, and the tries spent by then.
#[derive(Clone, Copy)]
pub struct Row {
    pub outcome: rules::Outcome,
    pub chunk: u32,
    pub by_compare: u32,
    pub by_flip: u32,
    pub spent: u32,
}

// Writes the row of a call behind those of the calls before it, which had spent so many tries.
// Rules out: a row further down; two columns exchanged.
// Required of: after_model, after_none and row_only of calls::after, which require it too.
pub fn put_row(log: &mut [u32], calls: u32, tries: u32, row: Row)
    requires { RowOver log.old calls tries row }
    ensures { log.new ≡ with_row log.old calls tries row }
{
    let at = 6 * calls as usize;
    let outcome = row.outcome;
    log[at] = calls + 1;
    log[at + 1] = u32::from(outcome);
    log[at + 2] = row.chunk;
    log[at + 3] = row.by_compare;
    log[at + 4] = row.by_flip;
    log[at + 5] = row.spent - tries;
}
