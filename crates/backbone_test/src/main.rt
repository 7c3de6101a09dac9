#![tactic(auto)]

// The run on the small formulas of docs/RULES.md, "Small formulas", and on what it refuses ("What comes back"). A line a run: its
// name, number and place, calls, tries, forced and free, the status bytes, the calls and the ways that settled the variables, the hints,
// the rows of the calls begun, and how many elements of each buffer are still 7, which all of them were before.
// `crates/backbone_test/stdout` was written by hand from the page.
ghost use Rattle.std.specs.Prelude.{◌≤◌};

use backbone::Buffers;
use rules::Report;
use rules::numbers::Answer;
use std::io;

fn word(rt: &impl Print, text: &[u8]) -> io::Result<()> {
    rt.write_all(text)
}

fn field(rt: &impl Print, n: u64) -> io::Result<()> {
    print!(rt; " {n}")
}

// The numbers of the variables: statuses, calls, ways, hints.
fn show_numbers<T: Copy + Into<u64>>(rt: &impl Print, numbers: &[T], vars: u32) -> io::Result<()> {
    for &n in numbers.iter().take(vars as usize) {
        field(rt, n.into())?;
    }
    Ok(())
}

// A stroke between two rows.
fn stroke(rt: &impl Print, i: usize) -> io::Result<()> {
    if 0 < i {
        if i % 6 == 0 {
            word(rt, b" /")?;
        }
    }
    Ok(())
}

fn show_number(rt: &impl Print, i: usize, n: u32, calls: u32) -> io::Result<()> {
    if i / 6 < calls as usize {
        stroke(rt, i)?;
        field(rt, n as u64)?;
    }
    Ok(())
}

// The rows of the calls begun, six numbers each.
fn show_rows(rt: &impl Print, log: &[u32], calls: u32) -> io::Result<()> {
    for (i, &n) in log.iter().enumerate() {
        show_number(rt, i, n, calls)?;
    }
    Ok(())
}

// How many numbers are still 7.
fn kept<T: Copy + Into<u64>>(numbers: &[T]) -> u64 {
    numbers.iter().filter(|&&n| n.into() == 7).count() as u64
}

fn show_report(rt: &impl Print, name: &[u8], r: Report) -> io::Result<()> {
    let answer = r.answer;
    word(rt, name)?;
    field(rt, answer.number() as u64)?;
    field(rt, answer.place() as u64)?;
    field(rt, r.calls as u64)?;
    field(rt, r.tries as u64)?;
    field(rt, r.forced as u64)?;
    field(rt, r.free as u64)?;
    Ok(())
}

fn show_settled(rt: &impl Print, vars: u32, buffers: &Buffers) -> io::Result<()> {
    word(rt, b" status")?;
    show_numbers(rt, buffers.status, vars)?;
    word(rt, b" calls")?;
    show_numbers(rt, buffers.calls, vars)?;
    word(rt, b" ways")?;
    show_numbers(rt, buffers.ways, vars)?;
    Ok(())
}

fn show_run(rt: &impl Print, vars: u32, begun: u32, buffers: &Buffers) -> io::Result<()> {
    word(rt, b" hints")?;
    show_numbers(rt, buffers.hints, vars)?;
    word(rt, b" log")?;
    show_rows(rt, buffers.log, begun)?;
    Ok(())
}

fn show_kept(rt: &impl Print, buffers: &Buffers) -> io::Result<()> {
    word(rt, b" kept")?;
    field(rt, kept(buffers.status))?;
    field(rt, kept(buffers.calls))?;
    field(rt, kept(buffers.ways))?;
    field(rt, kept(buffers.hints))?;
    field(rt, kept(buffers.log))?;
    word(rt, b"\n")?;
    Ok(())
}

fn show(
    rt: &impl Print,
    name: &[u8],
    entries: &[i32],
    vars: u32,
    held: &[i32],
    budget: u32,
    limit: u32,
    buffers: &mut Buffers,
) -> io::Result<()> {
    let r = backbone::run(entries, vars, held, budget, limit, buffers);
    show_report(rt, name, r)?;
    show_settled(rt, vars, buffers)?;
    show_run(rt, vars, r.calls, buffers)?;
    show_kept(rt, buffers)?;
    Ok(())
}

// A run with an element more in each buffer than three variables have.
fn show_all(
    rt: &impl Print,
    name: &[u8],
    entries: &[i32],
    vars: u32,
    held: &[i32],
    budget: u32,
    limit: u32,
) -> io::Result<()> {
    let mut status = [7u8; 4];
    let mut calls = [7u32; 4];
    let mut ways = [7u8; 4];
    let mut hints = [7u32; 4];
    let mut log = [7u32; 25];
    show(
        rt,
        name,
        entries,
        vars,
        held,
        budget,
        limit,
        &mut Buffers {
            status: &mut status,
            calls: &mut calls,
            ways: &mut ways,
            hints: &mut hints,
            log: &mut log,
        },
    )?;
    Ok(())
}

// With nothing held.
fn show_within(
    rt: &impl Print,
    name: &[u8],
    entries: &[i32],
    vars: u32,
    budget: u32,
    limit: u32,
) -> io::Result<()> {
    let none = [0i32; 0];
    show_all(rt, name, entries, vars, &none, budget, limit)?;
    Ok(())
}

// Three variables and a chunk limit, budget 100, with buffers of these lengths.
fn show_lent<
    const STATUS: usize,
    const CALLS: usize,
    const WAYS: usize,
    const HINTS: usize,
    const LOG: usize,
>(rt: &impl Print, name: &[u8], entries: &[i32], limit: u32) -> io::Result<()>
    requires { (STATUS ≤ 25) × (CALLS ≤ 25) × (WAYS ≤ 25) × (HINTS ≤ 25) × (LOG ≤ 25) }
{
    let none = [0i32; 0];
    let mut status = [7u8; STATUS];
    let mut calls = [7u32; CALLS];
    let mut ways = [7u8; WAYS];
    let mut hints = [7u32; HINTS];
    let mut log = [7u32; LOG];
    let mut buffers = Buffers {
        status: &mut status,
        calls: &mut calls,
        ways: &mut ways,
        hints: &mut hints,
        log: &mut log,
    };
    show(rt, name, entries, 3, &none, 100, limit, &mut buffers)?;
    Ok(())
}

// Literals held, budget 100 and chunk limit 2.
fn show_held(
    rt: &impl Print,
    name: &[u8],
    entries: &[i32],
    vars: u32,
    held: &[i32],
) -> io::Result<()> {
    show_all(rt, name, entries, vars, held, 100, 2)?;
    Ok(())
}

// Budget 100 and chunk limit 2.
fn show_plain(rt: &impl Print, name: &[u8], entries: &[i32], vars: u32) -> io::Result<()> {
    show_within(rt, name, entries, vars, 100, 2)?;
    Ok(())
}

fn no_clause_cases(rt: &impl Print) -> io::Result<()> {
    let none = [0i32; 0];
    show_plain(rt, b"v0", &none, 0)?;
    show_plain(rt, b"v0_empty_clause", &[0], 0)?;
    show_plain(rt, b"v1", &none, 1)?;
    show_within(rt, b"v1_budget_0", &none, 1, 0, 2)?;
    Ok(())
}

fn one_variable_cases(rt: &impl Print) -> io::Result<()> {
    show_plain(rt, b"unit", &[1, 0], 1)?;
    show_plain(rt, b"unit_twice", &[1, 1, 0], 1)?;
    show_plain(rt, b"both_signs", &[1, -1, 0], 1)?;
    show_plain(rt, b"no_model", &[1, 0, -1, 0], 1)?;
    Ok(())
}

fn two_variable_cases(rt: &impl Print) -> io::Result<()> {
    show_plain(rt, b"not_equal", &[1, 2, 0, -1, -2, 0], 2)?;
    show_plain(rt, b"one_forced", &[1, 2, 0, 1, -2, 0], 2)?;
    show_plain(rt, b"held_in_first_model", &[1, -2, 0, 1, 2, 0], 2)?;
    Ok(())
}

fn three_variable_cases(rt: &impl Print) -> io::Result<()> {
    show_plain(rt, b"three_units", &[1, 0, 2, 0, 3, 0], 3)?;
    show_plain(rt, b"one_of_three", &[1, 2, 3, 0], 3)?;
    show_within(rt, b"one_of_three_budget_2", &[1, 2, 3, 0], 3, 2, 2)?;
    show_within(rt, b"three_units_limit_1", &[1, 0, 2, 0, 3, 0], 3, 100, 1)?;
    Ok(())
}

// 10.
fn limit_cases(rt: &impl Print) -> io::Result<()> {
    let none = [0i32; 0];
    show_within(rt, b"limit_0", &none, 1, 100, 0)?;
    show_within(rt, b"limit_256", &none, 1, 100, 256)?;
    show_within(rt, b"limit_257", &none, 1, 100, 257)?;
    show_plain(rt, b"vars_257", &none, 257)?;
    Ok(())
}

// 1.
fn buffer_cases(rt: &impl Print) -> io::Result<()> {
    show_lent::<2, 3, 3, 3, 24>(rt, b"status_short", &[1, 2, 3, 0], 2)?;
    show_lent::<3, 2, 3, 3, 24>(rt, b"calls_short", &[1, 2, 3, 0], 2)?;
    show_lent::<3, 3, 2, 3, 24>(rt, b"ways_short", &[1, 2, 3, 0], 2)?;
    show_lent::<3, 3, 3, 2, 24>(rt, b"hints_short", &[1, 2, 3, 0], 2)?;
    show_lent::<3, 3, 3, 3, 23>(rt, b"log_short", &[1, 2, 3, 0], 2)?;
    show_lent::<3, 3, 3, 3, 24>(rt, b"buffers_right", &[1, 2, 3, 0], 2)?;
    Ok(())
}

// 11.
fn list_cases(rt: &impl Print) -> io::Result<()> {
    show_plain(rt, b"not_ended", &[1], 1)?;
    show_plain(rt, b"not_ended_later", &[1, 0, 1], 1)?;
    let zeros = [0i32; 1025];
    show_plain(rt, b"clauses_1024", &zeros[..1024], 0)?;
    show_plain(rt, b"clauses_1025", &zeros, 0)?;
    Ok(())
}

fn long_list_cases(rt: &impl Print) -> io::Result<()> {
    let ones = [1i32; 4097];
    show_plain(rt, b"entries_4096_not_ended", &ones[..4096], 1)?;
    show_plain(rt, b"entries_4097", &ones, 1)?;
    let mut ended = [1i32; 4096];
    ended[4095] = 0;
    show_plain(rt, b"entries_4096", &ended, 1)?;
    Ok(())
}

// 12.
fn above_cases(rt: &impl Print) -> io::Result<()> {
    show_plain(rt, b"above", &[2, 0], 1)?;
    show_plain(rt, b"above_minus", &[1, -2, 0], 1)?;
    show_plain(rt, b"above_no_variable", &[1, 0], 0)?;
    show_plain(rt, b"least", &[-2147483648, 0], 1)?;
    show_plain(rt, b"least_later", &[1, 0, -2147483648, 0], 1)?;
    Ok(())
}

// The order 10, 1, 11, 12, and within 11: too many entries, not ended, too many zeros.
fn order_cases(rt: &impl Print) -> io::Result<()> {
    show_lent::<2, 3, 3, 3, 25>(rt, b"10_before_1", &[2], 0)?;
    show_lent::<2, 3, 3, 3, 25>(rt, b"1_before_11", &[4], 2)?;
    show_plain(rt, b"11_before_12", &[2], 1)?;
    let mut zeros = [0i32; 1026];
    zeros[0] = 2;
    show_plain(rt, b"zeros_before_12", &zeros, 1)?;
    zeros[1025] = 1;
    zeros[0] = 0;
    show_plain(rt, b"not_ended_before_zeros", &zeros, 1)?;
    let many = [2i32; 4097];
    show_plain(rt, b"entries_before_12", &many, 1)?;
    Ok(())
}

// Held literals: clauses behind the formula, which do not count against 1,024 or 4,096.
fn held_cases(rt: &impl Print) -> io::Result<()> {
    let none = [0i32; 0];
    show_held(rt, b"held", &none, 1, &[1])?;
    show_held(rt, b"held_both_signs", &none, 1, &[1, -1])?;
    show_held(rt, b"held_of_three", &[1, 2, 3, 0], 3, &[-1])?;
    show_held(rt, b"held_two_of_three", &[1, 2, 3, 0], 3, &[-1, -2])?;
    show_held(rt, b"held_no_model", &[1, 2, 0, 1, -2, 0], 2, &[-1])?;
    Ok(())
}

// 15 and 13, and 12 before them.
fn held_refused_cases(rt: &impl Print) -> io::Result<()> {
    let none = [0i32; 0];
    let ones = [1i32; 257];
    show_held(rt, b"held_256", &none, 1, &ones[..256])?;
    show_held(rt, b"held_257", &none, 1, &ones)?;
    show_held(rt, b"held_0", &none, 1, &[1, 0])?;
    show_held(rt, b"held_above", &none, 1, &[-1, 1, -2, 0])?;
    show_held(rt, b"held_least", &none, 1, &[-2147483648])?;
    show_held(rt, b"held_no_variable", &none, 0, &[1])?;
    show_held(rt, b"12_before_15", &[2, 0], 1, &ones)?;
    show_held(rt, b"12_before_13", &[2, 0], 1, &[0])?;
    let zeros = [0i32; 257];
    show_held(rt, b"15_before_13", &none, 1, &zeros)?;
    Ok(())
}

fn held_large_cases(rt: &impl Print) -> io::Result<()> {
    let ones = [1i32; 256];
    let zeros = [0i32; 1024];
    show_held(rt, b"clauses_1024_held_256", &zeros, 1, &ones)?;
    let mut ended = [1i32; 4096];
    ended[4095] = 0;
    show_held(rt, b"entries_4096_held_256", &ended, 1, &ones)?;
    Ok(())
}

fn main(rt: HostRuntime) -> io::Result<()> {
    no_clause_cases(&rt)?;
    one_variable_cases(&rt)?;
    two_variable_cases(&rt)?;
    three_variable_cases(&rt)?;
    limit_cases(&rt)?;
    buffer_cases(&rt)?;
    list_cases(&rt)?;
    long_list_cases(&rt)?;
    above_cases(&rt)?;
    order_cases(&rt)?;
    held_cases(&rt)?;
    held_refused_cases(&rt)?;
    held_large_cases(&rt)?;
    Ok(())
}
