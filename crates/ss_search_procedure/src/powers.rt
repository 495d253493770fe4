// Powers within a limit.

ghost use Rattle.std.specs.Prelude.{ℕ, ◌≤◌, ◌*◌, ◌^◌, ◌↔◌, IsTrue};

/// Whether a power is at most a limit.
pub(crate) fn is_within(base: u64, exponent: usize, limit: u64) -> bool
    requires { 1 ≤ base }
    ensures { IsTrue result ↔ (base ^ exponent ≤ limit) }
{
    let mut power: u64 = 1;
    for _i in 0..exponent {
        if power > limit / base {
            return false;
        }
        power *= base;
    }
    power <= limit
}

/// The greatest depth at which as many splits as nested ones need are allowed, or 32.
pub(crate) fn greatest_depth(base: u64, limit: u64) -> usize
    requires { 2 ≤ base }
    ensures { (depth : ℕ) → base ^ (2 * depth) ≤ limit → depth ≤ result }
{
    for depth in 0..32 {
        if !is_within(base, 2 * depth + 2, limit) {
            return depth;
        }
    }
    32
}
