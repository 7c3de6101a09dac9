// What stands between the tokens: docs/RULES.md, "The text". Blanks, and comment lines, whose first byte is a `c` right behind an LF.
ghost use Rattle.std.specs.Prelude.{◌≡◌, true, ◌<◌, length, get_or, drop};
ghost use Rattle.texts.specs.Text.{is_blank, is_comment};
ghost use Rattle.reader.specs.Skips.{Past, Skips};

use crate::scan::{find, is_blank};

// Whether the line that starts at `at` is a comment.
fn starts_comment(text: &[u8], at: usize) -> bool
    ensures { result ≡ is_comment (drop at text.now) }
{
    matches!(text.get(at), Some(b'c'))
}

// The place behind the blank at `i`: the next byte, or the end of the comment line that begins there.
fn past_blank(text: &[u8], i: usize) -> usize
    requires { (i < length text.now) × (is_blank (get_or text.now i 0) ≡ true) }
    ensures { Past text.now i result }
{
    if text[i] != b'\n' {
        return i + 1;
    }
    if !starts_comment(text, i + 1) {
        return i + 1;
    }
    find(text, i + 1, |b| b == b'\n')
}

// The first byte of the next token from `at` on, or the length if there is none.
// Rules out: a byte of a comment line; a token passed over.
pub fn next_token(text: &[u8], at: usize) -> usize
    ensures { Skips text.now at result }
{
    let mut i = at;
    // Stays a `while`: a step goes over a blank, or over a whole comment line.
    while i < text.len() && is_blank(text[i]) {
        i = past_blank(text, i);
    }
    i
}
