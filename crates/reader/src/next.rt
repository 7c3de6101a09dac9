// The numbers of a text of tokens alone, as docs/RULES.md, "Claims", has it: found and read as those behind a header.
ghost use Rattle.reader.specs.Next.{Finds};

use crate::scan::{find, is_blank};
use crate::token::{Entry, token_of};

// Where a number stands, from its first byte up to the byte behind it.
#[derive(Clone, Copy)]
pub struct Spot {
    pub from: usize,
    pub to: usize,
    pub entry: Entry,
}

// The next number from `at` on, if there is one, or the place of a malformed token.
// Rules out: a comment passed over; a place behind the token for its first byte.
pub fn next_number(text: &[u8], at: usize) -> Result<Option<Spot>, usize>
    ensures { Finds text.now at result }
{
    let from = find(text, at, |b| !is_blank(b));
    if text.len() <= from {
        return Ok(None);
    }
    let to = find(text, from, is_blank);
    let Some(entry) = token_of(&text[from..to]) else {
        return Err(from);
    };
    Ok(Some(Spot { from, to, entry }))
}
