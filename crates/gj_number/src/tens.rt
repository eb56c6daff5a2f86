//! Powers of ten.
ghost use Rattle.std.specs.Prelude.{◌≡◌, ◌^◌, ◌≤◌};

/// The powers of ten that a `u64` has room for.
static TENS: [u64; 20] = [
    1,
    10,
    100,
    1_000,
    10_000,
    100_000,
    1_000_000,
    10_000_000,
    100_000_000,
    1_000_000_000,
    10_000_000_000,
    100_000_000_000,
    1_000_000_000_000,
    10_000_000_000_000,
    100_000_000_000_000,
    1_000_000_000_000_000,
    10_000_000_000_000_000,
    100_000_000_000_000_000,
    1_000_000_000_000_000_000,
    10_000_000_000_000_000_000,
];

/// Ten to the power `n`.
#[inline]
pub(crate) fn ten_to(n: usize) -> u64
    requires { n ≤ 19 }
    ensures { result ≡ 10 ^ n }
{
    TENS[n]
}

/// Ten to the power `n`, which may be larger.
#[inline]
pub(crate) fn wide_ten_to(n: usize) -> u128
    requires { n ≤ 38 }
    ensures { result ≡ 10 ^ n }
{
    if n <= 19 {
        ten_to(n) as u128
    } else {
        ten_to(19) as u128 * ten_to(n - 19) as u128
    }
}
