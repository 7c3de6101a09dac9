// The tokens behind the header, from left to right: docs/RULES.md, "What comes back". At one token the order is 5, 6, 7, 8.
ghost use Rattle.std.specs.Prelude.{◌≡◌, ◌≤◌, length};
ghost use Rattle.rules.specs.Numbers.{max_vars, max_entries};
ghost use Rattle.texts.specs.Reading.{ends_text};
ghost use Rattle.reader.specs.Words.{value_of, sizes};
ghost use Rattle.reader.specs.Steps.{entry_step, Steps, start, left};
ghost use Rattle.reader.specs.Stores.{Stores, reading};

use crate::header::Header;
use crate::next::Spot;
use crate::scan::{find, is_blank};
use crate::skip::next_token;
use crate::token::{token_of, value_of};
use rules::{MAX_ENTRIES, ReadAnswer, Reading};

// Where the reading stands: its next byte, the clauses complete and the entries stored.
#[derive(Clone, Copy)]
pub struct Cursor {
    pub at: usize,
    pub clauses: u32,
    pub entries: usize,
}

// The entry that stands at a spot: 6, 7, 8, or it is stored, and the cursor behind it.
fn judge_entry(h: Header, c: Cursor, spot: Spot) -> Result<Option<(i32, Cursor)>, ReadAnswer>
    requires { h.vars ≤ max_vars }
    ensures { result ≡ entry_step h c spot.from spot.to (value_of spot.entry) }
{
    if h.clauses <= c.clauses {
        return Err(ReadAnswer::TokenBehind(spot.from));
    }
    if h.vars < spot.entry.number {
        return Err(ReadAnswer::TokenOverVars(spot.from));
    }
    if MAX_ENTRIES <= c.entries {
        return Err(ReadAnswer::ManyTokens(spot.from));
    }
    let mut clauses = c.clauses;
    if spot.entry.number == 0 {
        clauses += 1;
    }
    let next = Cursor {
        at: spot.to,
        clauses,
        entries: c.entries + 1,
    };
    Ok(Some((value_of(spot.entry), next)))
}

// Whether a token is a `%` behind the last clause: then nothing behind it is read.
fn ends_text(h: Header, c: Cursor, word: &[u8]) -> bool
    ensures { result ≡ ends_text (sizes h) c.clauses word.now }
{
    word == b"%".as_slice() && h.clauses <= c.clauses
}

// The next entry and the cursor behind it, or the end of text.
fn next_step(text: &[u8], h: Header, c: Cursor) -> Result<Option<(i32, Cursor)>, ReadAnswer>
    requires { h.vars ≤ max_vars }
    ensures { Steps h text.now c result }
{
    let at = c.at;
    let from = next_token(text, at);
    if text.len() <= from {
        if c.clauses < h.clauses {
            return Err(ReadAnswer::ShortText(text.len()));
        }
        return Ok(None);
    }
    let to = find(text, from, is_blank);
    if ends_text(h, c, &text[from..to]) {
        return Ok(None);
    }
    let Some(entry) = token_of(&text[from..to]) else {
        return Err(ReadAnswer::BadToken(from));
    };
    judge_entry(h, c, Spot { from, to, entry })
}

// Stores the entries that stand from `from` on, or refuses.
// Rules out: 6 where 5 is due; an entry left out.
// Required of: read_header, whose header is within the sizes.
pub fn read_tokens(
    text: &[u8],
    h: Header,
    from: usize,
    entries: &mut [i32],
) -> Result<Reading, ReadAnswer>
    requires { (h.vars ≤ max_vars) × (max_entries ≤ length entries.old) }
    ensures { Stores (left h text.now (start from)) entries.old (reading result) entries.new }
{
    let mut c = Cursor {
        at: from,
        clauses: 0,
        entries: 0,
    };
    while let Some((x, next)) = next_step(text, h, c)? {
        entries[c.entries] = x;
        c = next;
    }
    Ok(Reading {
        answer: ReadAnswer::Accepted,
        vars: h.vars,
        clauses: h.clauses,
        entries: c.entries,
    })
}
