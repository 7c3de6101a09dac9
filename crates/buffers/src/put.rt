// Bytes, words and numbers put into a buffer at a cursor: each function answers the cursor behind what it put.
ghost use Rattle.std.specs.Prelude.{[], ◌∷◌, ◌++◌};
ghost use Rattle.texts.specs.Plain.{decimal};
ghost use Rattle.texts.specs.ModelLine.{signed};
ghost use Rattle.buffers.specs.Put.{Put, Room};

// One byte.
// Rules out: the byte one further on; a cursor that stays.
// Required of: put_decimal, and the lines of lines::line, whose room is the whole line's.
pub fn put_byte(out: &mut [u8], at: usize, byte: u8) -> usize
    requires { Room at (byte ∷ []) out.old }
    ensures { Put at (byte ∷ []) out.old result out.new }
{
    out[at] = byte;
    at + 1
}

// The bytes of a word.
// Rules out: the last byte left out; a byte behind the word.
// Required of: put_field and lines::line::put_status, whose room is the whole line's.
pub fn put_word(out: &mut [u8], at: usize, word: &[u8]) -> usize
    requires { Room at word.now out.old }
    ensures { Put at word.now out.old result out.new }
{
    let next = at + word.len();
    out[at..next].copy_from_slice(word);
    next
}

// The digits of a number, with no zero in front: those of a tenth of it, then the last one.
// Rules out: a zero in front; a digit too few.
// Required of: put_field and line::put_variable, whose room is the whole line's.
pub fn put_decimal(out: &mut [u8], at: usize, n: usize) -> usize
    requires { Room at (decimal n) out.old }
    ensures { Put at (decimal n) out.old result out.new }
{
    if n < 10 {
        return put_byte(out, at, b'0' + n as u8);
    }
    let next = put_decimal(out, at, n / 10);
    put_byte(out, next, b'0' + (n % 10) as u8)
}

// A number with its sign: a minus in front if it is negative.
// Rules out: the minus left out; a plus in front of 3.
// Required of: lines::model::put_literal and why_printed::line::put_spaced, whose room is the whole line's.
pub fn put_signed(out: &mut [u8], at: usize, negative: bool, n: usize) -> usize
    requires { Room at (signed negative n) out.old }
    ensures { Put at (signed negative n) out.old result out.new }
{
    if negative {
        let next = put_byte(out, at, b'-');
        return put_decimal(out, next, n);
    }
    put_decimal(out, at, n)
}

// A word and the number behind it.
// Rules out: the number in front of the word; a blank more between them.
// Required of: the lines of line.rt, whose room is the whole line's.
pub fn put_field(out: &mut [u8], at: usize, word: &[u8], n: usize) -> usize
    requires { Room at (word.now ++ decimal n) out.old }
    ensures { Put at (word.now ++ decimal n) out.old result out.new }
{
    let next = put_word(out, at, word);
    put_decimal(out, next, n)
}
