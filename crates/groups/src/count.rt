// How many clauses groups have: docs/RULES.md, "Groups". One of all values, and one a pair.
ghost use Rattle.std.specs.Prelude.{◌≡◌, ◌≤◌, length};
ghost use Rattle.texts.specs.Groups.{max_size, groups_from};
ghost use Rattle.groups.specs.Counts.{pair_count, SizesSmall};

// The pairs of n values.
// Rules out: each pair twice; a value with itself.
// Required of: clauses_of, for a size that fits.
fn pairs_of(n: u32) -> u32
    requires { n ≤ max_size }
    ensures { result ≡ pair_count n }
{
    let mut pairs: u32 = 0;
    for left in 0..n {
        pairs += left;
    }
    pairs
}

// The clauses of groups, by their sizes.
// Rules out: the pairs alone; the last group left out.
// Required of: read_list, for sizes that fit.
pub fn clauses_of(sizes: &[u8]) -> u32
    requires { SizesSmall sizes.now }
    ensures { result ≡ length (groups_from 0 sizes.now) }
{
    let mut clauses: u32 = 0;
    for size in sizes {
        clauses += 1 + pairs_of(*size as u32);
    }
    clauses
}
