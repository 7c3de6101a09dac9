#![tactic(auto)]

// Why a literal is forced, on small formulas, and what is refused (docs/RULES.md, "Why"). A line a question: its name, number and place,
// calls, tries, the first four marks, the 1,024th and what stands behind it, and the first four values. All were 7 before.
// `crates/why_test/stdout` was written by hand from the page.
use rules::numbers::Answer;
use rules::{Lit, WhyReport};
use std::io;

fn word(rt: &impl Print, text: &[u8]) -> io::Result<()> {
    rt.write_all(text)
}

fn field(rt: &impl Print, n: u64) -> io::Result<()> {
    print!(rt; " {n}")
}

fn show_number(rt: &impl Print, byte: u8) -> io::Result<()> {
    field(rt, byte as u64)?;
    Ok(())
}

// A byte of a buffer, or a stroke where it has none.
fn show_byte(rt: &impl Print, bytes: &[u8], i: usize) -> io::Result<()> {
    if i < bytes.len() {
        show_number(rt, bytes[i])?;
    } else {
        word(rt, b" -")?;
    }
    Ok(())
}

fn show_first(rt: &impl Print, bytes: &[u8]) -> io::Result<()> {
    show_byte(rt, bytes, 0)?;
    show_byte(rt, bytes, 1)?;
    show_byte(rt, bytes, 2)?;
    show_byte(rt, bytes, 3)?;
    Ok(())
}

fn show_report(rt: &impl Print, name: &[u8], r: WhyReport) -> io::Result<()> {
    let answer = r.answer;
    word(rt, name)?;
    field(rt, answer.number() as u64)?;
    field(rt, answer.place() as u64)?;
    field(rt, r.calls as u64)?;
    field(rt, r.tries as u64)?;
    Ok(())
}

fn show_buffers(rt: &impl Print, marks: &[u8], values: &[u8]) -> io::Result<()> {
    word(rt, b" marks")?;
    show_first(rt, marks)?;
    show_byte(rt, marks, 1023)?;
    show_byte(rt, marks, 1024)?;
    word(rt, b" values")?;
    show_first(rt, values)?;
    word(rt, b"\n")?;
    Ok(())
}

fn show(
    rt: &impl Print,
    name: &[u8],
    entries: &[i32],
    vars: u32,
    literal: i32,
    budget: u32,
    marks: &mut [u8],
    values: &mut [u8],
) -> io::Result<()> {
    let r = reason::why(entries, vars, Lit(literal), budget, marks, values);
    show_report(rt, name, r)?;
    show_buffers(rt, marks, values)?;
    Ok(())
}

// A question with an element more in each buffer than three variables need.
fn show_within(
    rt: &impl Print,
    name: &[u8],
    entries: &[i32],
    vars: u32,
    literal: i32,
    budget: u32,
) -> io::Result<()> {
    let mut marks = [7u8; 1025];
    let mut values = [7u8; 4];
    show(
        rt,
        name,
        entries,
        vars,
        literal,
        budget,
        &mut marks,
        &mut values,
    )?;
    Ok(())
}

// Budget 100.
fn show_plain(
    rt: &impl Print,
    name: &[u8],
    entries: &[i32],
    vars: u32,
    literal: i32,
) -> io::Result<()> {
    show_within(rt, name, entries, vars, literal, 100)?;
    Ok(())
}

fn unit_cases(rt: &impl Print) -> io::Result<()> {
    show_plain(rt, b"unit", &[1, 0], 1, 1)?;
    show_plain(rt, b"unit_twice", &[1, 1, 0], 1, 1)?;
    show_plain(rt, b"unit_minus", &[-1, 0], 1, -1)?;
    show_within(rt, b"unit_budget_0", &[1, 0], 1, 1, 0)?;
    Ok(())
}

// 1, 1 implies 2, 2 implies 3.
fn chain_cases(rt: &impl Print) -> io::Result<()> {
    let chain = [1i32, 0, -1, 2, 0, -2, 3, 0];
    show_plain(rt, b"chain", &chain, 3, 3)?;
    show_plain(rt, b"chain_part", &chain, 3, 2)?;
    show_within(rt, b"chain_stopped", &chain, 3, 2, 1)?;
    Ok(())
}

// The earlier one is kept: the last clauses go first.
fn two_reasons_cases(rt: &impl Print) -> io::Result<()> {
    show_plain(rt, b"two_reasons", &[1, 2, 0, 1, -2, 0, 1, 0], 2, 1)?;
    show_plain(rt, b"two_reasons_turned", &[1, 0, 1, 2, 0, 1, -2, 0], 2, 1)?;
    Ok(())
}

fn not_forced_cases(rt: &impl Print) -> io::Result<()> {
    let none = [0i32; 0];
    show_plain(rt, b"not_forced", &[1, 2, 0], 2, 1)?;
    show_plain(rt, b"other_sign", &[1, 0], 1, -1)?;
    show_plain(rt, b"no_clause", &none, 2, -2)?;
    show_within(rt, b"stopped_in_call_1", &none, 1, 1, 0)?;
    show_within(rt, b"stopped_in_call_2", &[1, 2, 0], 3, 1, 2)?;
    Ok(())
}

fn no_model_cases(rt: &impl Print) -> io::Result<()> {
    show_plain(rt, b"no_model", &[1, 0, -1, 0], 1, 1)?;
    show_plain(rt, b"empty_clause", &[1, 0, 0], 1, 1)?;
    Ok(())
}

// 10 and 1.
fn lent_cases(rt: &impl Print) -> io::Result<()> {
    let unit = [1i32, 0];
    let mut few = [7u8; 1023];
    let mut marks = [7u8; 1024];
    let mut two = [7u8; 2];
    let mut three = [7u8; 3];
    show_plain(rt, b"vars_257", &unit, 257, 1)?;
    show(rt, b"marks_short", &unit, 3, 1, 100, &mut few, &mut three)?;
    show(rt, b"values_short", &unit, 3, 1, 100, &mut marks, &mut two)?;
    show(
        rt,
        b"buffers_right",
        &unit,
        3,
        1,
        100,
        &mut marks,
        &mut three,
    )?;
    Ok(())
}

// 11 and 12.
fn list_cases(rt: &impl Print) -> io::Result<()> {
    show_plain(rt, b"not_ended", &[1], 1, 1)?;
    let zeros = [0i32; 1025];
    show_plain(rt, b"clauses_1025", &zeros, 1, 1)?;
    let ones = [1i32; 4097];
    show_plain(rt, b"entries_4097", &ones, 1, 1)?;
    show_plain(rt, b"above", &[1, 0, -2, 0], 1, 1)?;
    Ok(())
}

// 13, and that it comes last.
fn literal_cases(rt: &impl Print) -> io::Result<()> {
    show_plain(rt, b"literal_0", &[1, 0], 1, 0)?;
    show_plain(rt, b"literal_above", &[1, 0], 1, 2)?;
    show_plain(rt, b"literal_above_minus", &[1, 0], 1, -2)?;
    show_plain(rt, b"literal_least", &[1, 0], 1, -2147483648)?;
    show_plain(rt, b"12_before_13", &[2, 0], 1, 0)?;
    show_plain(rt, b"11_before_13", &[1], 1, 0)?;
    Ok(())
}

fn main(rt: HostRuntime) -> io::Result<()> {
    unit_cases(&rt)?;
    chain_cases(&rt)?;
    two_reasons_cases(&rt)?;
    not_forced_cases(&rt)?;
    no_model_cases(&rt)?;
    lent_cases(&rt)?;
    list_cases(&rt)?;
    literal_cases(&rt)?;
    Ok(())
}
