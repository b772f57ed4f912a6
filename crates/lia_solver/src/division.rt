//! Common divisors, and coefficients divided by them in place.

ghost use Rattle.std.specs.Prelude.{◌≡◌, ◌/◌, ◌^◌, ◌<◌, ◌≤◌, unsigned_abs};
ghost use Rattle.linear_formula.specs.steps.Order.{AllWithin};
ghost use Rattle.shadow_elim.specs.Division.{common_divisor, parts_divisor, divided_parts, floor_quotient, ceiling_quotient};

/// How great numbers are that are divided as numbers of 64 bits.
const SHORT: i128 = 1 << 62;

/// And in two steps: those of a row.
const LONG: i128 = 1 << 84;

/// Euclid's algorithm. Nothing is divided where one of both is 1.
pub fn common_divisor(a: u64, b: u64) -> u64
    ensures { result ≡ common_divisor a b }
{
    if a == 1 {
        return 1;
    }
    if b == 1 {
        return 1;
    }
    let mut x = a;
    let mut y = b;
    while y != 0 {
        let rest = x % y;
        x = y;
        y = rest;
    }
    x
}

/// The greatest common divisor of the coefficients.
pub fn parts_divisor(parts: &[(u32, i128)]) -> u64
    requires { AllWithin parts.now }
    ensures { result ≡ parts_divisor parts.now }
{
    let mut divisor = 0;
    let mut left = parts.len();
    while left > 0 && divisor != 1 {
        left -= 1;
        divisor = common_divisor(parts[left].1.unsigned_abs() as u64, divisor);
    }
    divisor
}

/// The quotient in two divisions of 64 bits: of what is left of the upper part by the lower one.
fn in_two_steps(number: u128, divisor: u64) -> u128
    requires limit { number ≤ 2 ^ 84 }
    requires some { 0 < divisor }
    requires small { divisor ≤ 2 ^ 31 }
    ensures { result ≡ number / divisor }
{
    let upper = (number / (1 << 32)) as u64;
    let lower = (number % (1 << 32)) as u64;
    let first = upper / divisor;
    let second = (upper % divisor * (1 << 32) + lower) / divisor;
    u128::from(first) * (1 << 32) + u128::from(second)
}

/// The greatest integer not above the quotient of a number beyond 64 bits.
fn long_quotient(number: i128, divisor: u64) -> i128
    requires limit { unsigned_abs number ≤ 2 ^ 84 }
    requires some { 0 < divisor }
    requires small { divisor ≤ 2 ^ 31 }
    ensures { result ≡ floor_quotient number divisor }
{
    if number >= 0 {
        in_two_steps(number as u128, divisor) as i128
    } else {
        -1 - in_two_steps((-1 - number) as u128, divisor) as i128
    }
}

/// The greatest integer not above the quotient. Numbers of 64 bits are divided as such, and those
/// of a row by a small divisor in two steps.
pub fn quotient(number: i128, divisor: u64) -> i128
    requires { 0 < divisor }
    ensures { result ≡ floor_quotient number divisor }
{
    if number <= SHORT && number >= -SHORT && divisor <= 1 << 62 {
        i128::from((number as i64).div_euclid(divisor as i64))
    } else if number <= LONG && number >= -LONG && divisor <= 1 << 31 {
        long_quotient(number, divisor)
    } else {
        number.div_euclid(i128::from(divisor))
    }
}

/// Divides each coefficient.
pub fn divide_all(parts: &mut [(u32, i128)], divisor: u64)
    requires { 1 < divisor }
    ensures { parts.new ≡ divided_parts divisor parts.old }
{
    for part in parts.iter_mut() {
        part.1 = quotient(part.1, divisor);
    }
}

/// The least integer that is not below the quotient.
pub fn divide_up(constant: i128, divisor: u64) -> i128
    requires limit { unsigned_abs constant ≤ 2 ^ 84 }
    requires divisor { 1 < divisor }
    ensures { result ≡ ceiling_quotient constant divisor }
{
    -quotient(-constant, divisor)
}
