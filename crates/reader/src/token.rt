// Tokens: docs/RULES.md, "The text". An optional `-` and 1 to 9 digits; a minus before zeros alone is malformed.
ghost use Rattle.std.specs.Prelude.{◌≡◌, ◌≤◌};
ghost use Rattle.texts.specs.Text.{entry_of};
ghost use Rattle.reader.specs.Words.{token_of, signed_token, max_number, value_of};

use crate::number::number_of;

// A number with a minus or without. 0 closes a clause; any other number is a literal's variable.
#[derive(Clone, Copy)]
pub struct Entry {
    pub minus: bool,
    pub number: u32,
}

fn signed(minus: bool, n: Option<u32>) -> Option<Entry>
    ensures { result ≡ signed_token minus n }
{
    let number = n?;
    if minus && number == 0 {
        return None;
    }
    Some(Entry { minus, number })
}

// What a word says if it is read as a token.
// Rules out: `-0` as an entry; `1x` as 1.
pub fn token_of(word: &[u8]) -> Option<Entry>
    ensures { result ≡ token_of (entry_of word.now) }
{
    match word {
        [b'-', digits @ ..] => signed(true, number_of(digits)),
        _ => signed(false, number_of(word)),
    }
}

// The entry as the list holds it.
// Rules out: 3 for -3; a place for the number.
// Required of: tokens::judge_entry, after 7; arguments::number_of, below ten digits.
pub fn value_of(e: Entry) -> i32
    requires { e.number ≤ max_number }
    ensures { result ≡ value_of e }
{
    let x = e.number as i32;
    if e.minus { 0 - x } else { x }
}
