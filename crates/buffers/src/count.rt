// How many bytes of a buffer are not 0.
ghost use Rattle.std.specs.Prelude.{◌≡◌, ◌<◌, length};
ghost use Rattle.rules.specs.Lists.{is_set, count};

// How many bytes are not 0.
// Rules out: those that are 0; one too few.
// Required of: why_printed::clauses::put_reason, with a mark for each clause; closing::tell, with a value for each variable.
pub fn count_set(bytes: &[u8]) -> usize
    requires { length bytes.now < 65536 }
    ensures { result ≡ count is_set bytes.now }
{
    bytes.iter().filter(|byte| **byte != 0).count()
}
