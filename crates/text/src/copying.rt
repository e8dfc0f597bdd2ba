// A slice copied into another.
ghost use Rattle.std.specs.Prelude.{◌≡◌, length};

// Copies the one slice into the other, which is as long.
// Kept: a loop beside std's `copy_from_slice`, of which the compiler makes a call of `memmove`. It makes none of this loop, so the archive
// for C asks of its user no more than `memcpy` and `memset` (include/puchkewa.h).
pub fn copy<T: Copy>(from: &[T], to: &mut [T])
    requires { length to.old ≡ length from.now }
    ensures { to.new ≡ from.now }
{
    for i in 0..from.len() {
        to[i] = from[i];
    }
}
