// The buffer behind the list: docs/RULES.md, "What comes back". The list, then zeros; zeros alone after a refusal.
ghost use Rattle.std.specs.Prelude.{◌≡◌, ◌≤◌, length};
ghost use Rattle.rules.specs.Numbers.{max_entries};
ghost use Rattle.reader.specs.Stores.{cleared};

use rules::MAX_ENTRIES;

// Zeros from the index `from` up to the 4,096th entry.
// Rules out: the 4,096th entry as it was; the list cleared with the rest.
// Required of: read and groups::read_groups, which have asked for 4,096 entries and count no more.
pub fn clear(entries: &mut [i32], from: usize)
    requires { (from ≤ max_entries) × (max_entries ≤ length entries.old) }
    ensures { entries.new ≡ cleared entries.old from max_entries }
{
    entries[from..MAX_ENTRIES].fill(0);
}
