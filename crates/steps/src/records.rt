// The records of variables (docs/RULES.md, "What comes back"): after a call, the call and the way of each variable that it settled. The
// records stand in three buffers, statuses, calls and ways.
ghost use Rattle.std.specs.Prelude.{◌≡◌};
ghost use Rattle.steps.specs.Records.{way_now, record_now, RecordOver, RecordsAt, RecordsOver, RecordsPut};

use rules::{Record, Way};

// How a variable with this status was settled: by a chunk if it is forced, else by compare if the model gives it another value than the
// first one, else by flip.
fn way_of(status: u8, other: bool) -> Way
    ensures { result ≡ way_now status other }
{
    if 1 < status {
        Way::Chunk
    } else if other {
        Way::Compare
    } else {
        Way::Flip
    }
}

// The record of a variable that a call has settled.
fn new_record(status: u8, call: u32, other: bool) -> Record
    ensures { result ≡ record_now status call other }
{
    Record {
        status: status,
        call: call,
        way: way_of(status, other),
    }
}

// Puts the record of the variable at an index if the call has settled it: its status is not 0, and its way still is.
fn put_record(
    first: &[u8],
    model: &[u8],
    status: &[u8],
    calls: &mut [u32],
    ways: &mut [u8],
    i: usize,
    call: u32,
)
    requires { RecordOver first.now model.now status.now calls.old ways.old i }
    ensures { RecordsAt i call first.now model.now status.now calls.old ways.old
        calls.new ways.new }
{
    if status[i] != 0 {
        if ways[i] == 0 {
            let other = model[i] != first[i];
            let r = new_record(status[i], call, other);
            let way = r.way;
            calls[i] = r.call;
            ways[i] = u8::from(way);
        }
    }
}

// Puts the records of the variables that a call has settled; the other records stay. Where the call found no model, all that it settled
// is forced, and the model is not looked at.
// Rules out: the record of an earlier call written over; flip where the model gives another value.
// Required of: calls::next::run_calls and backbone::first::settle, over buffers of one length.
pub fn put_records(
    first: &[u8],
    model: &[u8],
    status: &[u8],
    calls: &mut [u32],
    ways: &mut [u8],
    call: u32,
)
    requires { RecordsOver first.now model.now status.now calls.old ways.old }
    ensures { RecordsPut call first.now model.now status.now calls.old ways.old
        calls.new ways.new }
{
    for i in 0..status.len() {
        put_record(first, model, status, calls, ways, i, call);
    }
}
