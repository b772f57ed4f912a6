//! Sums of products beyond 128 bits.

ghost use Rattle.std.specs.Prelude.{◌≡◌, ◌+◌, ◌*◌, ◌^◌, ◌<◌, ◌≤◌, ℤ, pos, ◌+ℤ◌, ◌*ℤ◌, unsigned_abs, MatchOption};
ghost use Rattle.linear_formula.specs.steps.Exact.{exact_value, HasRoom};

const LIMB: i128 = 1 << 96;

const HALF_LIMB: i128 = 1 << 48;

/// `high * 2^96 + low`.
#[derive(Clone, Copy, Debug)]
pub struct ExactSum {
    high: i128,
    low: i128,
}

fn split_limb(t: i128) -> (i128, i128)
    ensures whole { t ≡ (result.0 *ℤ pos (2 ^ 96)) +ℤ result.1 }
    ensures quotient { unsigned_abs result.0 * 2 ^ 96 ≤ unsigned_abs t }
    ensures rest { unsigned_abs result.1 < 2 ^ 96 }
{
    (t / LIMB, t % LIMB)
}

fn split_half(t: i128) -> (i128, i128)
    ensures whole { t ≡ (result.0 *ℤ pos (2 ^ 48)) +ℤ result.1 }
    ensures quotient { unsigned_abs result.0 * 2 ^ 48 ≤ unsigned_abs t }
    ensures rest { unsigned_abs result.1 < 2 ^ 48 }
{
    (t / HALF_LIMB, t % HALF_LIMB)
}

fn product(a: i64, b: i128) -> i128
    requires { unsigned_abs b ≤ 2 ^ 63 }
    ensures value { result ≡ a *ℤ b }
    ensures limit { unsigned_abs result ≤ 2 ^ 63 * unsigned_abs b }
{
    i128::from(a) * b
}

impl ExactSum {
    /// The sum that is this value.
    pub fn new(value: i64) -> ExactSum
        ensures value { exact_value result ≡ value }
        ensures fields { result ≡ record { high = pos 0; low = value } }
        ensures room { HasRoom 0 result }
    {
        ExactSum {
            high: 0,
            low: i128::from(value),
        }
    }

    /// The sum and one product more. No product of these types is too wide for it.
    pub fn plus_product(self, multiplier: i64, factor: i128) -> ExactSum
        requires factor_limit { unsigned_abs factor ≤ 2 ^ 84 }
        requires high_limit { unsigned_abs self.high ≤ 2 ^ 126 }
        requires low_limit { unsigned_abs self.low < 2 ^ 96 }
        ensures value { exact_value result ≡ exact_value self +ℤ (multiplier *ℤ factor) }
        ensures high { unsigned_abs result.high ≤ unsigned_abs self.high + 2 ^ 53 }
        ensures low { unsigned_abs result.low < 2 ^ 96 }
    {
        let (factor_high, factor_low) = split_half(factor);
        let (high, middle) = split_half(product(multiplier, factor_high));
        let (carry, low) = split_limb(
            self.low + middle * HALF_LIMB + product(multiplier, factor_low),
        );
        ExactSum {
            high: self.high + high + carry,
            low,
        }
    }

    /// The sum, where it is not far beyond the limits of terms.
    pub fn value(self) -> Option<i128>
        requires { unsigned_abs self.low < 2 ^ 96 }
        ensures { MatchOption result (2 ^ 96 ≤ unsigned_abs (exact_value self))
            (λ z. z ≡ exact_value self) }
    {
        if self.high > 1 || self.high < -1 {
            None
        } else {
            Some(self.high * LIMB + self.low)
        }
    }
}
