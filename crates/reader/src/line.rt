// Lines before the header: docs/RULES.md, "The text". They are blanks, or their first byte is `c`.
ghost use Rattle.std.specs.Prelude.{◌≡◌};
ghost use Rattle.texts.specs.Text.{lines_of};
ghost use Rattle.reader.specs.Lines.{skipped, first_line};

use crate::scan::{find, is_blank};

// Rules out: true for a `c` behind a blank; false for an empty line.
pub fn is_skipped(line: &[u8]) -> bool
    ensures { result ≡ skipped line.now }
{
    line.starts_with(b"c") || line.iter().all(|b| is_blank(*b))
}

// The first line that is not skipped, which has to be the header: its first byte, and the LF or the end of text behind it. A text that
// ends with LF has an empty line behind it, which is skipped.
// Rules out: the second line that is not skipped; None where there is one.
pub fn first_line(text: &[u8]) -> Option<(usize, usize)>
    ensures { result ≡ first_line (lines_of text.now) }
{
    let mut at = 0;
    // Stays a `while`: a step goes over a whole line.
    while at <= text.len() {
        let end = find(text, at, |b| b == b'\n');
        if !is_skipped(&text[at..end]) {
            return Some((at, end));
        }
        at = end + 1;
    }
    None
}
