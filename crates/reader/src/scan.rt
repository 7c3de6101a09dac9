// Bytes and the search for one: docs/RULES.md, "The text". Lines, words and tokens are found by `find` alone.
ghost use Rattle.std.specs.Prelude.{◌≡◌, ℕ, ◌≤◌, Bool, length};
ghost use Rattle.texts.specs.Text.{is_gap, is_blank};
ghost use Rattle.reader.specs.Scan.{Computes, first_from};

// Rules out: true for CR; false for a tab.
pub fn is_gap(b: u8) -> bool
    ensures { result ≡ is_gap b }
{
    matches!(b, b' ' | b'\t')
}

// Rules out: true for NUL; false for CR.
pub fn is_blank(b: u8) -> bool
    ensures { result ≡ is_blank b }
{
    is_gap(b) || matches!(b, b'\r' | b'\n')
}

// The index of the first byte from `at` on that passes, or the length if there is none, or `at` where that is more.
// Rules out: a later byte that passes; the length where one stands before it.
// Required of: whoever searches, with a test that may be called at any byte.
pub fn find<P: Fn(u8) -> bool>(s: &[u8], at: usize, passes: P) -> usize
    requires { P.IsAlwaysCallable passes }
    ensures first { (test : ℕ → Bool) → Computes (P.post passes) test → result ≡ first_from test s.now at }
    ensures onward { at ≤ result }
    ensures within { at ≤ length s.now → result ≤ length s.now }
{
    for i in at..s.len() {
        if passes(s[i]) {
            return i;
        }
    }
    at.max(s.len())
}
