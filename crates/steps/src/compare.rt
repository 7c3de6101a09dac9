// After every model: compare, then flip (docs/RULES.md, "Run"). A candidate that is dropped is free.
ghost use Rattle.std.specs.Prelude.{◌<◌, length};
ghost use Rattle.rules.specs.Run.{differs};
ghost use Rattle.steps.specs.Filter.{DropsAt, Drops, CompareOver};

// Frees the variable at an index if it is open and passes, and answers 1 if so, else 0.
// Rules out: a forced variable freed; 1 answered where nothing is dropped.
// Required of: compare and flip::flip_at, for an index within the statuses.
pub fn drop_if(status: &mut [u8], i: usize, passes: bool) -> u32
    requires { i < length status.old }
    ensures { DropsAt i passes status.old result status.new }
{
    if passes {
        if status[i] == 0 {
            status[i] = 1;
            return 1;
        }
    }
    0
}

// Drops each candidate whose variable the model gives another value than the first model, and answers how many.
// Rules out: a forced variable freed; a candidate dropped where both models agree.
// Required of: calls::after::after_model, by ModelReady.
pub fn compare(first: &[u8], model: &[u8], status: &mut [u8]) -> u32
    requires { CompareOver first.now model.now status.old }
    ensures { Drops (differs first.now model.now) status.old result status.new }
{
    let mut dropped: u32 = 0;
    for i in 0..status.len() {
        let other = model[i] != first[i];
        dropped += drop_if(status, i, other);
    }
    dropped
}
