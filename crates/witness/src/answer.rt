// What is answered for an accepted list (docs/RULES.md, "A witness to see"): the run, made in buffers of its own, then both models.
ghost use Rattle.std.specs.Prelude.{◌≡◌, length, ◌<◌};
ghost use Rattle.rules.specs.Witness.{literals_from};
ghost use Rattle.witness.specs.Answer.{free_by, way_witness, WitnessOver, FreeKnown, ModelsPut, AskedOver, RunOver, Answered, not_free};

use crate::again::model_of_call;
use crate::literals::put_literals;
use calls::next::Limits;
use rules::Report;

// Whether a variable, by its number, is free: there is such a variable, and compare or flip settled it.
// Rules out: a forced variable called free; the way of the next variable.
fn is_free(ways: &[u8], variable: u32) -> bool
    ensures { result ≡ free_by ways.now variable }
{
    if variable == 0 {
        return false;
    }
    let i = (variable - 1) as usize;
    if i < ways.len() {
        let way = ways[i];
        way == 1 || way == 2
    } else {
        false
    }
}

// Flips the variable at an index if flip settled it.
// Rules out: a flip for compare; the model itself for flip.
// Required of: put_witness, for an index within the model.
fn flip_if(values: &mut [u8], way: u8, i: usize)
    requires { i < length values.old }
    ensures { values.new ≡ way_witness way values.old i }
{
    if way == 2 {
        values[i] = steps::flip::other_byte(values[i]);
    }
}

// Puts the witness: the model of the call, with the variable flipped if flip settled it.
// Rules out: the model of the call where flip settled the variable; the first model.
// Required of: put_models, for the index of a free variable.
fn put_witness(values: &mut [u8], way: u8, i: usize, witness: &mut [i32])
    requires { WitnessOver values.old i witness.old }
    ensures { witness.new ≡ literals_from 0 (way_witness way values.old i) }
{
    flip_if(values, way, i);
    put_literals(values, witness);
}

// Puts both models of a free variable: the first one, and its witness.
// Rules out: the two exchanged; the witness of the next variable.
// Required of: after_run, where the run has left the variable free.
fn put_models(
    entries: &[i32],
    variable: u32,
    model: &[u8],
    status: &mut [u8],
    calls: &[u32],
    ways: &[u8],
    log: &[u32],
    values: &mut [u8],
    first: &mut [i32],
    witness: &mut [i32],
    limits: Limits,
)
    requires { FreeKnown entries.now limits variable model.now status.old calls.now ways.now log.now values.old first.old witness.old }
    ensures { ModelsPut entries.now limits (length status.old) variable first.new witness.new }
{
    let i = (variable - 1) as usize;
    put_literals(model, first);
    model_of_call(entries, model, status, calls, log, values, calls[i], limits);
    put_witness(values, ways[i], i, witness);
}

// What is returned for a variable that is not free.
fn not_free() -> Report
    ensures { result ≡ not_free }
{
    Report {
        answer: rules::RunAnswer::Refused(rules::Refusal::NotFree),
        calls: 0,
        tries: 0,
        forced: 0,
        free: 0,
    }
}

// The run, and then the two models, if the variable is free in it.
// Rules out: the models of another run; literals put where the variable is not free.
// Required of: room_for_run, with buffers of one length.
fn after_run(
    entries: &[i32],
    variable: u32,
    model: &mut [u8],
    status: &mut [u8],
    calls: &mut [u32],
    ways: &mut [u8],
    hints: &mut [u32],
    log: &mut [u32],
    values: &mut [u8],
    first: &mut [i32],
    witness: &mut [i32],
    limits: Limits,
) -> Report
    requires { RunOver entries.now model.old status.old calls.old ways.old hints.old log.old values.old first.old witness.old limits }
    ensures { Answered entries.now limits (length first.old) variable first.old witness.old
        result first.new witness.new }
{
    let report = backbone::first::accepted_run(
        entries, model, status, calls, ways, hints, log, limits,
    );
    if is_free(ways, variable) {
        put_models(
            entries, variable, model, status, calls, ways, log, values, first, witness, limits,
        );
        return report;
    }
    not_free()
}

// The buffers of the run are made here, for up to 256 variables.
// Rules out: the first model for the witness; a run over more variables than there are.
// Required of: with_held, for the list that it has made.
pub fn room_for_run(
    entries: &[i32],
    variable: u32,
    first: &mut [i32],
    witness: &mut [i32],
    limits: Limits,
) -> Report
    requires { AskedOver entries.now first.old witness.old limits }
    ensures { Answered entries.now limits (length first.old) variable first.old witness.old
        result first.new witness.new }
{
    let n = first.len();
    let mut model = [0u8; rules::MAX_VARS as usize];
    let mut status = [0u8; rules::MAX_VARS as usize];
    let mut calls = [0u32; rules::MAX_VARS as usize];
    let mut ways = [0u8; rules::MAX_VARS as usize];
    let mut hints = [0u32; rules::MAX_VARS as usize];
    let mut log = [0u32; rules::MAX_LOG];
    let mut values = [0u8; rules::MAX_VARS as usize];
    after_run(
        entries,
        variable,
        &mut model[..n],
        &mut status[..n],
        &mut calls[..n],
        &mut ways[..n],
        &mut hints[..n],
        &mut log[..6 * (n + 1)],
        &mut values[..n],
        first,
        witness,
        limits,
    )
}
