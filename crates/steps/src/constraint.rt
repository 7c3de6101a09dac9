// The constraint of a chunk (docs/RULES.md, "Run"): at least one of its candidates is false.
ghost use Rattle.std.specs.Prelude.{◌≡◌, pred, ◌≤◌};
ghost use Rattle.rules.specs.Meaning.{negated};
ghost use Rattle.rules.specs.Run.{literal_at};
ghost use Rattle.steps.specs.Constraint.{PutOver, PutsAt, ConstraintOver, ConstraintPut};

// The literal that is false where a variable has its byte of the first model.
fn false_literal(v: rules::Var, byte: u8) -> rules::Lit
    requires { (1 ≤ v.0) × (v.0 ≤ 256) }
    ensures { result.0 ≡ negated (literal_at (pred v.0) byte) }
{
    let l = rules::Lit(v.0 as i32);
    if byte < 2 {
        l
    } else {
        formula::lit::negated(l)
    }
}

// Puts the candidate at an index, negated, at k if it is one and the chunk has room for it; answers how many the chunk has then.
fn put_if(first: &[u8], status: &[u8], i: usize, chunk: usize, out: &mut [i32], k: usize) -> usize
    requires { PutOver i first.now status.now chunk out.old }
    ensures { PutsAt i first.now status.now chunk k out.old result out.new }
{
    if status[i] == 0 {
        if k < chunk {
            let l = false_literal(rules::Var(i as u32 + 1), first[i]);
            let entry = l.0;
            out[k] = entry;
            return k + 1;
        }
    }
    k
}

// Puts the lowest candidates, negated, as many as the chunk has.
// Rules out: the candidates themselves; a candidate left out.
// Required of: calls::next::chunk_call, with room for 256 and a chunk of open variables.
pub fn put_constraint(first: &[u8], status: &[u8], chunk: usize, out: &mut [i32])
    requires { ConstraintOver first.now status.now chunk out.old }
    ensures { ConstraintPut first.now status.now chunk out.old out.new }
{
    let mut k: usize = 0;
    for i in 0..status.len() {
        k = put_if(first, status, i, chunk, out, k);
    }
}
