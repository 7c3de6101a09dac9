// Numerals: docs/RULES.md, "The text". 1 to 9 digits, so a value is below 1,000,000,000 and fits.
ghost use Rattle.std.specs.Prelude.{◌≡◌};
ghost use Rattle.reader.specs.Words.{number_of};

// What a word says if it is read as a numeral.
// Rules out: ten digits as a number; 0 for an empty word.
#[tactic(auto, using(crate::proofs::NumberLaws::not_number_long))]
pub fn number_of(word: &[u8]) -> Option<u32>
    ensures { result ≡ number_of word.now }
{
    if word.is_empty() {
        return None;
    }
    if 9 < word.len() {
        return None;
    }
    let mut n: u32 = 0;
    for b in word {
        if !b.is_ascii_digit() {
            return None;
        }
        n = 10 * n + u32::from(*b - b'0');
    }
    Some(n)
}
