// Chunks (docs/RULES.md, "Run"): the values that a chunk's call starts from, and what a chunk without a model forces.
ghost use Rattle.std.specs.Prelude.{◌≡◌, ◌<◌, length};
ghost use Rattle.rules.specs.Run.{forced_by, force_first, forced_value, forced_values};
ghost use Rattle.steps.specs.Chunk.{ForcesAt};

// The value that a status forces, or unset.
fn forced_value(status: u8) -> u8
    ensures { result ≡ forced_value status }
{
    if status < 2 {
        0
    } else if status == 2 {
        2
    } else {
        1
    }
}

// The literals forced so far, as values.
// Rules out: a free variable set; a forced one unset.
// Required of: calls::next::chunk_call, which requires it too.
pub fn fill_start(status: &[u8], values: &mut [u8])
    requires { length status.now ≡ length values.old }
    ensures { values.new ≡ forced_values status.now }
{
    for (i, value) in values.iter_mut().enumerate() {
        *value = forced_value(status[i]);
    }
}

// The status of a variable that is forced to a byte.
fn forced_by(byte: u8) -> u8
    ensures { result ≡ forced_by byte }
{
    if byte < 2 { 3 } else { 2 }
}

// Forces the variable at an index to its value in the first model if it is open and some are left to force; answers how many are
// left then.
fn force_if(first: &[u8], status: &mut [u8], i: usize, left: u32) -> u32
    requires { (i < length first.now) × (i < length status.old) }
    ensures { ForcesAt i first.now left status.old result status.new }
{
    if status[i] == 0 {
        if 0 < left {
            status[i] = forced_by(first[i]);
            return left - 1;
        }
    }
    left
}

// Forces the lowest open variables, as many as the chunk has, to their values in the first model.
// Rules out: one variable more; the opposite value.
// Required of: calls::after::after_none, by NoneReady.
pub fn force_first(first: &[u8], status: &mut [u8], chunk: u32)
    requires { length first.now ≡ length status.old }
    ensures { status.new ≡ force_first first.now status.old chunk }
{
    let mut left = chunk;
    for i in 0..status.len() {
        left = force_if(first, status, i, left);
    }
}
