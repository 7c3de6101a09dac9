// Two models, a line each (docs/RULES.md, "The printed witness").
ghost use Rattle.std.specs.Prelude.{◌≡◌, map, length};
ghost use Rattle.texts.specs.WitnessPrinted.{literal_bit};
ghost use Rattle.witness_printed.specs.Pair.{LineReady, PairReady, LinePut, PairPut};

use formula::lit::sign;
use lines::model::put_model;

// The bit of a literal: 0 behind a minus.
fn bit_of(entry: i32) -> u8
    ensures { result ≡ literal_bit entry }
{
    if sign(rules::Lit(entry)) { 1 } else { 0 }
}

// The bits of a model, off its literals.
// Rules out: the bits exchanged; the last one left out.
// Required of: put_line, over buffers of one length.
fn put_bits(literals: &[i32], bits: &mut [u8])
    requires { length literals.now ≡ length bits.old }
    ensures { bits.new ≡ map literal_bit literals.now }
{
    for (i, bit) in bits.iter_mut().enumerate() {
        *bit = bit_of(literals[i]);
    }
}

// The line of a model, off its literals.
// Rules out: the line of another model; a line without LF.
// Required of: put_pair, whose room is that of both lines.
fn put_line(out: &mut [u8], at: usize, literals: &[i32], bits: &mut [u8]) -> usize
    requires { LineReady at literals.now bits.old out.old }
    ensures { LinePut at literals.now out.old result bits.new out.new }
{
    put_bits(literals, bits);
    put_model(out, at, bits)
}

// Two models, a line each.
// Rules out: the second before the first; one of them alone.
// Required of: answer::put_answer, where nothing is refused.
pub fn put_pair(out: &mut [u8], first: &[i32], witness: &[i32], bits: &mut [u8]) -> usize
    requires { PairReady first.now witness.now bits.old out.old }
    ensures { PairPut first.now witness.now out.old result bits.new out.new }
{
    let next = put_line(out, 0, first, bits);
    put_line(out, next, witness, bits)
}
