// Numbers of 128 bits.

ghost use Rattle.std.specs.Prelude.{◌≡◌, ◌+ℤ◌, ◌*ℤ◌, neg_ℤ};
ghost use Rattle.ss_logic.specs.Sums.{checked, plus_times, is_zero, is_weight};

fn added(a: i128, b: i128) -> Option<i128>
    ensures { result ≡ checked (a +ℤ b) }
{
    a.checked_add(b)
}

fn multiplied(a: i128, b: i128) -> Option<i128>
    ensures { result ≡ checked (a *ℤ b) }
{
    a.checked_mul(b)
}

pub(crate) fn negated(a: i128) -> Option<i128>
    ensures { result ≡ checked (neg_ℤ a) }
{
    a.checked_neg()
}

/// The first number, and so many times the last.
pub(crate) fn plus_times(a: i128, n: i128, b: i128) -> Option<i128>
    ensures { result ≡ plus_times a n b }
{
    match multiplied(n, b) {
        Some(product) => added(a, product),
        None => None,
    }
}

pub(crate) fn is_zero(a: i128) -> bool
    ensures { result ≡ is_zero a }
{
    a == 0
}

/// Whether a fact may have the weight.
pub(crate) fn is_weight(is_equality: bool, w: i128) -> bool
    ensures { result ≡ is_weight is_equality w }
{
    if is_equality { !is_zero(w) } else { w > 0 }
}

/// The number with more bits.
pub(crate) fn wide(n: i64) -> i128
    ensures { result ≡ n }
{
    n as i128
}
