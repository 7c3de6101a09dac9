// The literals of a model (docs/RULES.md, "A witness to see"): V of them, that of a variable at its index.
ghost use Rattle.std.specs.Prelude.{◌≡◌, pred, ◌≤◌};
ghost use Rattle.rules.specs.Run.{literal_at};
ghost use Rattle.rules.specs.Witness.{literals_from};
ghost use Rattle.witness.specs.Answer.{LiteralsOver};

// The literal that is true where a variable has this byte.
fn true_literal(v: rules::Var, byte: u8) -> rules::Lit
    requires { (1 ≤ v.0) × (v.0 ≤ 256) }
    ensures { result.0 ≡ literal_at (pred v.0) byte }
{
    let l = rules::Lit(v.0 as i32);
    if byte < 2 {
        formula::lit::negated(l)
    } else {
        l
    }
}

// Puts the literals of a model.
// Rules out: the literals of the other model; the last literal left out.
// Required of: answer::put_models and answer::put_witness, over buffers of one length.
pub fn put_literals(model: &[u8], out: &mut [i32])
    requires { LiteralsOver model.now out.old }
    ensures { out.new ≡ literals_from 0 model.now }
{
    for (i, entry) in out.iter_mut().enumerate() {
        *entry = true_literal(rules::Var(i as u32 + 1), model[i]).0;
    }
}
