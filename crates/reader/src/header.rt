// The header line: docs/RULES.md, "The text". `p`, `cnf`, V and C, from the line's first byte on, spaces or tabs between, blanks behind.
ghost use Rattle.std.specs.Prelude.{◌≡◌, [], ◌∷◌};
ghost use Rattle.rules.specs.Lists.{cut};
ghost use Rattle.texts.specs.Text.{is_gap, words_of, sizes_of, header_of};
ghost use Rattle.reader.specs.Words.{header_line, Trims};

use crate::number::number_of;
use crate::scan::{find, is_blank, is_gap};

// V and C.
#[derive(Clone, Copy)]
pub struct Header {
    pub vars: u32,
    pub clauses: u32,
}

// How long the line is without the blanks behind.
fn trimmed_len(line: &[u8]) -> usize
    ensures { Trims line.now result }
{
    for n in (0..line.len()).rev() {
        if !is_blank(line[n]) {
            return n + 1;
        }
    }
    0
}

// The four words as a header.
fn sizes_of(p: &[u8], cnf: &[u8], vars: &[u8], clauses: &[u8]) -> Option<Header>
    ensures { result ≡ header_line (sizes_of (p.now ∷ cnf.now ∷ vars.now ∷ clauses.now ∷ [])) }
{
    if p != b"p".as_slice() || cnf != b"cnf".as_slice() {
        return None;
    }
    let vars = number_of(vars)?;
    let clauses = number_of(clauses)?;
    Some(Header { vars, clauses })
}

// A line with no blanks behind. A word that is missing is read as an empty one, which no header has.
fn words_of(line: &[u8]) -> Option<Header>
    ensures { result ≡ header_line (sizes_of (words_of (cut is_gap line.now))) }
{
    let in_word = |b| !is_gap(b);
    let p_end = find(line, 0, is_gap);
    let cnf = find(line, p_end, in_word);
    let cnf_end = find(line, cnf, is_gap);
    let vars = find(line, cnf_end, in_word);
    let vars_end = find(line, vars, is_gap);
    let clauses = find(line, vars_end, in_word);
    let clauses_end = find(line, clauses, is_gap);
    let more = find(line, clauses_end, in_word);
    if more < line.len() {
        return None;
    }
    sizes_of(
        &line[..p_end],
        &line[cnf..cnf_end],
        &line[vars..vars_end],
        &line[clauses..clauses_end],
    )
}

// What a line says if it is read as the header.
// Rules out: a header with a blank before the `p`; a fifth word passed over.
pub fn header_of(line: &[u8]) -> Option<Header>
    ensures { result ≡ header_line (header_of line.now) }
{
    let n = trimmed_len(line);
    words_of(&line[..n])
}
