// The numbers that bytes of a tape stand for, the lowest first.
ghost use Rattle.std.specs.Prelude.{◌≡◌, ◌+◌, ◌≤◌, length, take, drop};
ghost use Rattle.reference.specs.Tape.{from_le_bytes};

// The number in the n bytes from `at` on.
// Kept: `copy_from_slice`, not `copy` of crate text: every call of the library gives n as a constant, so the compiler makes one load of it.
pub fn number_at(tape: &[u8], at: usize, n: usize) -> u64
    requires { (n ≤ 8) × (at + n ≤ length tape.now) }
    ensures { result ≡ from_le_bytes (take n (drop at tape.now)) }
{
    let mut bytes = [0; 8];
    bytes[..n].copy_from_slice(&tape[at..at + n]);
    u64::from_le_bytes(bytes)
}
