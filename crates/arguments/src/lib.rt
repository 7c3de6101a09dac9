#![tactic(auto)]

// The numbers that a program is started with. A number is written as in a text: docs/RULES.md, "The text". No contract can say what a program
// is started with; what a word says is proved.
ghost use Rattle.std.specs.Prelude.{◌≡◌};
ghost use Rattle.texts.specs.Text.{entry_of};
ghost use Rattle.reader.specs.Words.{token_of};
ghost use Rattle.arguments.specs.Number.{argument_of};

use reader::token::{token_of, value_of};
use std::env::FillError;
use std::rt::Env;

// One of the words that a program is started with says no number.
#[derive(Clone, Copy)]
pub struct NoNumber;

// The number that a word says: an optional `-` and 1 to 9 digits, but not `-0`.
// Rules out: 0 for `-0`; 12 for `12x`.
pub fn number_of(word: &[u8]) -> Option<i32>
    ensures { result ≡ argument_of (token_of (entry_of word.now)) }
{
    let entry = token_of(word)?;
    // never true: nine digits say no more
    if 999999999 < entry.number {
        return None;
    }
    Some(value_of(entry))
}

// The number that word i says, if there is such a word; word 0 is the program's own name. One that is longer than 16 bytes is no number.
pub fn number_at(rt: &impl Env, i: usize) -> Result<Option<i32>, NoNumber> {
    let mut word = [0u8; 16];
    match rt.arg(i, &mut word) {
        Ok(n) => Ok(Some(number_of(&word[..n]).ok_or(NoNumber)?)),
        Err(FillError::TooLong) => Err(NoNumber),
        Err(FillError::NotPresent) => Ok(None),
    }
}
