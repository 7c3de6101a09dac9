// A model's values as they are written for a caller.
ghost use Rattle.std.specs.Prelude.{◌≡◌, map};
ghost use Rattle.rules.specs.Meaning.{bit_of};

// The value of a variable as it is written: 1 for true, 0 for false.
// Rules out: 1 for false; the search's 2 for true.
fn bit_of(byte: u8) -> u8
    ensures { result ≡ bit_of byte }
{
    u8::from(2 <= byte)
}

// Writes a model's values as bits.
// Rules out: the bytes of the search; 1 for false.
pub fn write_bits(values: &mut [u8])
    ensures { values.new ≡ map bit_of values.old }
{
    for value in values.iter_mut() {
        *value = bit_of(*value);
    }
}
