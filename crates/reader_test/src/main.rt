#![tactic(auto)]

// The reader at its edges: docs/RULES.md, "The text" and "What comes back". A line a text: its name, number and place, V, C and the
// entry count. `crates/reader_test/stdout` was written by hand from the page.
use rules::Reading;
use rules::numbers::Answer;
use std::io;

fn word(rt: &impl Print, text: &[u8]) -> io::Result<()> {
    rt.write_all(text)
}

fn field(rt: &impl Print, n: u64) -> io::Result<()> {
    print!(rt; " {n}")
}

fn write_line(rt: &impl Print, name: &[u8], r: Reading) -> io::Result<()> {
    let answer = r.answer;
    word(rt, name)?;
    field(rt, answer.number() as u64)?;
    field(rt, answer.place() as u64)?;
    field(rt, r.vars as u64)?;
    field(rt, r.clauses as u64)?;
    field(rt, r.entries as u64)?;
    word(rt, b"\n")?;
    Ok(())
}

fn show(rt: &impl Print, name: &[u8], text: &[u8]) -> io::Result<()> {
    let mut entries = [0i32; 4096];
    write_line(rt, name, reader::read(text, &mut entries))?;
    Ok(())
}

// Texts that have no header.
fn line_cases(rt: &impl Print) -> io::Result<()> {
    show(rt, b"empty", b"")?;
    show(rt, b"comments", b"c a\nc b\n")?;
    show(rt, b"comment_at_the_end", b"c a")?;
    show(rt, b"blank_lines", b" \n\t\r\n")?;
    show(rt, b"second_line", b"\nx\n")?;
    Ok(())
}

fn before_p_cases(rt: &impl Print) -> io::Result<()> {
    show(rt, b"lines_before", b"c x\n\n \t\r\np cnf 1 1\n1 0\n")?;
    show(rt, b"blank_before_c", b" c x\np cnf 1 1\n1 0\n")?;
    show(rt, b"blank_before_p", b" p cnf 1 1\n1 0")?;
    show(rt, b"blank_before_p_later", b"c\n p cnf 1 1\n1 0")?;
    show(rt, b"form_feed_line", b"\x0c\np cnf 1 1\n1 0")?;
    Ok(())
}

// The header line.
fn header_cases(rt: &impl Print) -> io::Result<()> {
    show(rt, b"header_at_the_end", b"p cnf 0 0")?;
    show(rt, b"header_at_the_end_one", b"p cnf 1 1")?;
    show(rt, b"tabs", b"p\tcnf\t \t2\t1\n1 0")?;
    show(rt, b"cr_behind", b"p cnf 1 1\r\n1 0\r\n")?;
    show(rt, b"cr_between", b"p\rcnf 1 1\n1 0")?;
    show(rt, b"blanks_behind", b"p cnf 1 1 \t \n1 0")?;
    Ok(())
}

fn header_number_cases(rt: &impl Print) -> io::Result<()> {
    show(rt, b"leading_zeros", b"p cnf 001 000000001\n01 00")?;
    show(rt, b"ten_digits", b"p cnf 0000000001 1\n1 0")?;
    show(rt, b"ten_digits_c", b"p cnf 1 0000000001\n1 0")?;
    show(rt, b"plus", b"p cnf +1 1\n1 0")?;
    show(rt, b"minus", b"p cnf 1 -1\n1 0")?;
    show(rt, b"letter", b"p cnf 1 1a\n1 0")?;
    Ok(())
}

fn header_word_cases(rt: &impl Print) -> io::Result<()> {
    show(rt, b"p_alone", b"p")?;
    show(rt, b"no_clauses", b"p cnf 1\n1 0")?;
    show(rt, b"no_cnf", b"p 1 1\n1 0")?;
    show(rt, b"word_more", b"p cnf 1 1 1\n1 0")?;
    show(rt, b"no_gap", b"pcnf 1 1\n1 0")?;
    show(rt, b"capital", b"P cnf 1 1\n1 0")?;
    show(rt, b"cnf_long", b"p cnff 1 1\n1 0")?;
    show(rt, b"nul_in_header", b"p cnf 1\x00 1\n1 0")?;
    Ok(())
}

// Form feed and vertical tab are no blanks.
fn header_byte_cases(rt: &impl Print) -> io::Result<()> {
    show(rt, b"form_feed_in_header", b"p\x0ccnf 1 1\n1 0")?;
    show(rt, b"vertical_tab_in_header", b"p cnf 1\x0b1\n1 0")?;
    show(rt, b"form_feed_behind_header", b"p cnf 1 1\x0c\n1 0")?;
    Ok(())
}

fn header_size_cases(rt: &impl Print) -> io::Result<()> {
    show(rt, b"vars_256", b"p cnf 256 0")?;
    show(rt, b"vars_257", b"p cnf 257 0")?;
    show(rt, b"clauses_1024", b"p cnf 0 1024\n")?;
    show(rt, b"clauses_1025", b"p cnf 0 1025\n")?;
    show(rt, b"large_later", b"c\np cnf 257 0")?;
    show(rt, b"3_before_4", b"p cnf 257 x")?;
    Ok(())
}

// Malformed tokens.
fn minus_cases(rt: &impl Print) -> io::Result<()> {
    show(rt, b"minus_alone", b"p cnf 1 1\n- 0")?;
    show(rt, b"minus_0", b"p cnf 1 1\n-0 0")?;
    show(rt, b"minus_00", b"p cnf 1 1\n-00 0")?;
    show(rt, b"minus_minus", b"p cnf 1 1\n--1 0")?;
    show(rt, b"minus_behind", b"p cnf 1 1\n1- 0")?;
    Ok(())
}

fn digit_cases(rt: &impl Print) -> io::Result<()> {
    show(rt, b"plus_1", b"p cnf 1 1\n+1 0")?;
    show(rt, b"token_ten_digits", b"p cnf 1 1\n0000000001 0")?;
    show(rt, b"token_minus_ten", b"p cnf 1 1\n-0000000001 0")?;
    show(rt, b"token_nine_digits", b"p cnf 1 1\n000000001 0")?;
    show(rt, b"token_minus_nine", b"p cnf 1 1\n-000000001 0")?;
    Ok(())
}

fn bad_byte_cases(rt: &impl Print) -> io::Result<()> {
    show(rt, b"1x", b"p cnf 1 1\n1x 0")?;
    show(rt, b"x_second", b"p cnf 1 1\n1 x")?;
    show(rt, b"nul", b"p cnf 1 1\n\x00 0")?;
    show(rt, b"nul_behind", b"p cnf 1 1\n1\x00 0")?;
    show(rt, b"above_127", b"p cnf 1 1\n\x80 0")?;
    Ok(())
}

fn no_blank_cases(rt: &impl Print) -> io::Result<()> {
    show(rt, b"form_feed", b"p cnf 1 1\n1\x0c0")?;
    show(rt, b"vertical_tab", b"p cnf 1 1\n1\x0b0")?;
    show(rt, b"form_feed_second", b"p cnf 1 1\n1 \x0c 0")?;
    show(rt, b"vertical_tab_last", b"p cnf 1 1\n1 0 \x0b")?;
    Ok(())
}

// Comment lines behind the header.
fn comment_cases(rt: &impl Print) -> io::Result<()> {
    show(rt, b"comment_behind", b"p cnf 1 1\nc x\n1 0")?;
    show(rt, b"comment_inside", b"p cnf 2 1\n1\nc1 2 0\nc\n2 0\n")?;
    show(rt, b"comment_last", b"p cnf 1 1\n1 0\nc x")?;
    show(
        rt,
        b"comment_any_bytes",
        b"p cnf 1 1\nc \x00\xff % -0\r\n1 0",
    )?;
    show(rt, b"comment_only", b"p cnf 1 1\nc 1 0\n")?;
    show(rt, b"comment_for_zero", b"p cnf 1 1\n1\nc 0")?;
    Ok(())
}

// A `c` that is no line's first byte.
fn no_comment_cases(rt: &impl Print) -> io::Result<()> {
    show(rt, b"c_behind_blank", b"p cnf 1 1\n1\n c\n0")?;
    show(rt, b"c_behind_token", b"p cnf 1 1\n1 0 c")?;
    show(rt, b"c_behind_cr", b"p cnf 1 1\n\rc\n1 0")?;
    show(rt, b"c_behind_header", b"p cnf 1 1 c\n1 0")?;
    show(rt, b"capital_c", b"p cnf 1 1\nC\n1 0")?;
    Ok(())
}

// A `%` that ends the text.
fn percent_cases(rt: &impl Print) -> io::Result<()> {
    show(rt, b"percent", b"p cnf 1 1\n1 0\n%\n0\n")?;
    show(rt, b"percent_last", b"p cnf 1 1\n1 0\n%")?;
    show(rt, b"percent_in_line", b"p cnf 1 1\n1 0 % x 9\x00")?;
    show(rt, b"percent_c_0", b"p cnf 1 0\n%\n1")?;
    show(rt, b"percent_behind_comment", b"p cnf 1 1\n1 0\nc\n%\n1")?;
    Ok(())
}

// One that does not.
fn no_percent_cases(rt: &impl Print) -> io::Result<()> {
    show(rt, b"percent_first", b"p cnf 1 1\n%\n1 0")?;
    show(rt, b"percent_inside", b"p cnf 1 1\n1 % 0")?;
    show(rt, b"percent_one_less", b"p cnf 1 2\n1 0\n%\n")?;
    show(rt, b"percent_twice", b"p cnf 1 1\n1 0\n%%\n")?;
    show(rt, b"percent_0", b"p cnf 1 1\n1 0\n%0\n")?;
    show(rt, b"6_before_percent", b"p cnf 1 1\n1 0\n0\n%\n")?;
    show(rt, b"percent_before_header", b"%\np cnf 1 0\n")?;
    Ok(())
}

// Tokens that are refused with 6 and 7, and the order 5, 6, 7.
fn after_last_cases(rt: &impl Print) -> io::Result<()> {
    show(rt, b"after_last", b"p cnf 1 1\n1 0 1 0")?;
    show(rt, b"after_last_zero", b"p cnf 1 1\n1 0 0")?;
    show(rt, b"5_before_6", b"p cnf 1 1\n1 0 x")?;
    show(rt, b"6_before_7", b"p cnf 1 1\n1 0 2")?;
    show(rt, b"c_0_literal", b"p cnf 1 0\n1")?;
    show(rt, b"c_0_zero", b"p cnf 1 0\n0")?;
    Ok(())
}

fn above_cases(rt: &impl Print) -> io::Result<()> {
    show(rt, b"v_0_literal", b"p cnf 0 1\n1 0")?;
    show(rt, b"v_0_zero", b"p cnf 0 1\n0")?;
    show(rt, b"above", b"p cnf 1 1\n2 0")?;
    show(rt, b"above_minus", b"p cnf 1 1\n-2 0")?;
    show(rt, b"above_nine_digits", b"p cnf 1 1\n999999999 0")?;
    show(rt, b"256_and_257", b"p cnf 256 1\n256 -256 257 0")?;
    Ok(())
}

// The end of text.
fn end_cases(rt: &impl Print) -> io::Result<()> {
    show(rt, b"inside", b"p cnf 1 1\n1")?;
    show(rt, b"inside_lf", b"p cnf 1 1\n1\n")?;
    show(rt, b"before_c", b"p cnf 1 2\n1 0")?;
    show(rt, b"before_c_lf", b"p cnf 1 2\n1 0\n")?;
    show(rt, b"no_token", b"p cnf 1 1\n")?;
    Ok(())
}

fn whole_cases(rt: &impl Print) -> io::Result<()> {
    show(rt, b"whole", b"p cnf 1 1\n1 0")?;
    show(rt, b"whole_lf", b"p cnf 1 1\n1 0\n")?;
    show(rt, b"blanks_between", b"p cnf 2 2\n\n 1\t-2\r\n0\r0")?;
    show(rt, b"twice_and_both", b"p cnf 1 1\n1 1 -1 0")?;
    show(rt, b"empty_clause", b"p cnf 1 1\n0")?;
    Ok(())
}

fn byte_at(i: usize, b: u8) -> u8 {
    if i % 2 == 0 { b } else { b' ' }
}

// Tokens of one byte each, with a space between: `b` at each even index.
fn alternate(t: &mut [u8], b: u8) {
    for (i, x) in t.iter_mut().enumerate() {
        *x = byte_at(i, b);
    }
}

// The bytes at the start of a text.
fn copy(front: &[u8], text: &mut [u8]) {
    if front.len() <= text.len() {
        let (start, _) = text.split_at_mut(front.len());
        start.copy_from_slice(front);
    }
}

// Literals `1` behind `p cnf 1 1`, but for the 4,096th entry, which starts at 8,200, and the next one, at 8,202.
fn show_entries(
    rt: &impl Print,
    name: &[u8],
    n: usize,
    entry_4096: u8,
    entry_4097: u8,
) -> io::Result<()> {
    let mut text = [0u8; 8203];
    alternate(&mut text, b'1');
    copy(b"p cnf 1 1\n", &mut text);
    text[8200] = entry_4096;
    text[8202] = entry_4097;
    show_front(rt, name, &text, n)?;
    Ok(())
}

// The first n bytes.
fn show_front(rt: &impl Print, name: &[u8], text: &[u8], n: usize) -> io::Result<()> {
    if n <= text.len() {
        show(rt, name, &text[0..n])?;
    }
    Ok(())
}

fn entry_cases(rt: &impl Print) -> io::Result<()> {
    show_entries(rt, b"entry_4096_literal", 8202, b'1', b'1')?;
    show_entries(rt, b"entry_4096_zero", 8202, b'0', b'1')?;
    show_entries(rt, b"entry_4097_literal", 8203, b'1', b'1')?;
    show_entries(rt, b"entry_4097_zero", 8203, b'1', b'0')?;
    show_entries(rt, b"5_before_8", 8203, b'1', b'x')?;
    show_entries(rt, b"6_before_8", 8203, b'0', b'1')?;
    show_entries(rt, b"7_before_8", 8203, b'1', b'2')?;
    Ok(())
}

// Zeros behind `p cnf 0 1024`: the 1,024th one starts at 2,060.
fn show_clauses(rt: &impl Print, name: &[u8], n: usize) -> io::Result<()> {
    let mut text = [0u8; 2061];
    alternate(&mut text, b'0');
    copy(b"p cnf 0 1024\n", &mut text);
    show_front(rt, name, &text, n)?;
    Ok(())
}

// Blanks behind `p cnf 0 0`.
fn show_blanks(rt: &impl Print, name: &[u8], n: usize) -> io::Result<()> {
    let mut text = [b' '; 32769];
    copy(b"p cnf 0 0\n", &mut text);
    show_front(rt, name, &text, n)?;
    Ok(())
}

// What is no token, behind `p cnf 0 0` and a closing `%`.
fn show_behind(rt: &impl Print, name: &[u8], n: usize) -> io::Result<()> {
    let mut text = [b'x'; 32769];
    copy(b"p cnf 0 0\n%\n", &mut text);
    show_front(rt, name, &text, n)?;
    Ok(())
}

fn size_cases(rt: &impl Print) -> io::Result<()> {
    show_clauses(rt, b"clauses_1023", 2060)?;
    show_clauses(rt, b"clauses_1024_whole", 2061)?;
    show_blanks(rt, b"text_32768", 32768)?;
    show_blanks(rt, b"text_32769", 32769)?;
    show_behind(rt, b"percent_32768", 32768)?;
    show_behind(rt, b"percent_32769", 32769)?;
    Ok(())
}

// How many entries are x.
fn count_of(e: &[i32], x: i32) -> u64 {
    e.iter().filter(|y| **y == x).count() as u64
}

// A buffer after a reading: how many of its entries are -1, 0, 1 and 7, which all of them were before.
fn show_counts(rt: &impl Print, e: &[i32]) -> io::Result<()> {
    word(rt, b"entries")?;
    field(rt, count_of(e, -1))?;
    field(rt, count_of(e, 0))?;
    field(rt, count_of(e, 1))?;
    field(rt, count_of(e, 7))?;
    word(rt, b"\n")?;
    Ok(())
}

fn show_buffer(rt: &impl Print, name: &[u8], text: &[u8], entries: &mut [i32]) -> io::Result<()> {
    write_line(rt, name, reader::read(text, entries))?;
    show_counts(rt, entries)?;
    Ok(())
}

fn buffer_cases(rt: &impl Print) -> io::Result<()> {
    let mut short = [7i32; 4095];
    show_buffer(rt, b"buffer_4095", b"p cnf 1 1\n-1 0", &mut short)?;
    let mut right = [7i32; 4096];
    show_buffer(rt, b"buffer_4096", b"p cnf 1 1\n-1 0", &mut right)?;
    let mut more = [7i32; 4097];
    show_buffer(rt, b"buffer_4097", b"p cnf 1 1\n-1 0", &mut more)?;
    Ok(())
}

fn show_cleared(rt: &impl Print, name: &[u8], text: &[u8]) -> io::Result<()> {
    let mut entries = [7i32; 4097];
    show_buffer(rt, name, text, &mut entries)?;
    Ok(())
}

// Each refusal from 3 to 9.
fn cleared_cases(rt: &impl Print) -> io::Result<()> {
    show_cleared(rt, b"cleared_after_3", b"")?;
    show_cleared(rt, b"cleared_after_4", b"p cnf 257 1\n1 0")?;
    show_cleared(rt, b"cleared_after_5", b"p cnf 1 2\n1 0 -1 x")?;
    show_cleared(rt, b"cleared_after_6", b"p cnf 1 1\n-1 0 1")?;
    show_cleared(rt, b"cleared_after_7", b"p cnf 1 1\n1 -2 0")?;
    let mut text = [0u8; 8203];
    alternate(&mut text, b'1');
    copy(b"p cnf 1 1\n", &mut text);
    show_cleared(rt, b"cleared_after_8", &text)?;
    show_cleared(rt, b"cleared_after_9", b"p cnf 1 2\n1 0 -1")?;
    Ok(())
}

fn kept_cases(rt: &impl Print) -> io::Result<()> {
    let long = [b' '; 32769];
    let mut right = [7i32; 4097];
    show_buffer(rt, b"kept_after_2", &long, &mut right)?;
    let mut short = [7i32; 4095];
    show_buffer(rt, b"1_before_2", &long, &mut short)?;
    Ok(())
}

fn main(rt: HostRuntime) -> io::Result<()> {
    line_cases(&rt)?;
    before_p_cases(&rt)?;
    header_cases(&rt)?;
    header_number_cases(&rt)?;
    header_word_cases(&rt)?;
    header_byte_cases(&rt)?;
    header_size_cases(&rt)?;
    minus_cases(&rt)?;
    digit_cases(&rt)?;
    bad_byte_cases(&rt)?;
    no_blank_cases(&rt)?;
    comment_cases(&rt)?;
    no_comment_cases(&rt)?;
    percent_cases(&rt)?;
    no_percent_cases(&rt)?;
    after_last_cases(&rt)?;
    above_cases(&rt)?;
    end_cases(&rt)?;
    whole_cases(&rt)?;
    entry_cases(&rt)?;
    size_cases(&rt)?;
    buffer_cases(&rt)?;
    cleared_cases(&rt)?;
    kept_cases(&rt)?;
    Ok(())
}
