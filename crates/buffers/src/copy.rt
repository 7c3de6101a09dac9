// Copying the front of one buffer into another.
ghost use Rattle.std.specs.Prelude.{◌≡◌, ◌++◌, ◌≤◌, length, take, drop};

// Copies the first n bytes of one slice to another one, whose rest stays.
// Rules out: the last byte left out; a cleared rest.
// Required of: backbone::first::settle, over buffers of one length.
pub fn copy_first(from: &[u8], to: &mut [u8], n: usize)
    requires { (n ≤ length from.now) × (n ≤ length to.old) }
    ensures { to.new ≡ take n from.now ++ drop n to.old }
{
    to[..n].copy_from_slice(&from[..n]);
}
