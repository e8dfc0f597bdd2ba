// Which x makes a * x + b a given number modulo 2^64: the smallest, found bit by bit, with no product and no inverse. For request M-107,
// where a formula comes to a * x + b in the start value x of one register.
#![tactic(auto)]

ghost use Rattle.std.specs.Prelude.{◌≡◌, ◌+◌, ◌*◌, ◌%◌, ◌^◌, ◌≤◌};
ghost use Rattle.solving.specs.Solutions.{Smallest, Answers, Solves};

// What is left of c once the multiple of its lowest bit is taken off, halved.
fn left(a: u64, c: u64) -> u64
    requires { a % 2 ≡ 1 }
    ensures { (2 * result + c % 2 * a) % 2 ^ 64 ≡ c }
{
    if c % 2 == 0 {
        c / 2
    } else {
        c.wrapping_sub(a) / 2
    }
}

// The smallest x with a * x = c modulo 2^n, for an odd a.
fn solve_odd(a: u64, c: u64, n: u64) -> u64
    requires { (a % 2 ≡ 1) × (n ≤ 64) }
    ensures { Smallest (Solves n a c) result }
{
    let mut rest = c;
    let mut x = 0;
    let mut bit: u64 = 1;
    for _i in 0..n {
        if rest % 2 == 1 {
            x += bit;
        }
        rest = left(a, rest);
        bit = bit.wrapping_add(bit);
    }
    x
}

// The smallest x with a * x = c modulo 2^64, if there is one.
pub fn solve(a: u64, c: u64) -> Option<u64>
    ensures { Answers (λ x. a * x % 2 ^ 64 ≡ c) result }
{
    let mut part = a;
    let mut rest = c;
    for i in 0..64u64 {
        if part % 2 == 1 {
            return Some(solve_odd(part, rest, 64 - i));
        }
        if rest % 2 == 1 {
            return None;
        }
        part /= 2;
        rest /= 2;
    }
    Some(0)
}

// The smallest x with a * x + b = w modulo 2^64, if there is one.
pub fn solve_sum(a: u64, b: u64, w: u64) -> Option<u64>
    ensures { Answers (λ x. (a * x + b) % 2 ^ 64 ≡ w) result }
{
    solve(a, w.wrapping_sub(b))
}
