//! Numbers in decimal.

ghost use Rattle.std.specs.Prelude.{◌≡◌, ◌+◌, ◌-◌, ◌*◌, ◌<◌, ◌≤◌, ◌^◌, ℤ, IfOk, IfSome, IfNone, length, take, drop};
ghost use Rattle.proof_bundle.specs.steps.Reading.{Gives, IsFrom, below_zero_at, begins, behind_digits, digits_of, is_digit, is_plain, max_count, max_thing, number_at, plain_value, signed_at, tag_at, value_from};

use crate::error::BundleError;

/// What follows a tag.
#[tactic(auto, unfolding(crate::specs::steps::Reading::tag_at))]
pub fn behind<'a>(bytes: &'a [u8], tag: &[u8]) -> Result<&'a [u8], BundleError>
    ensures { Gives (λ r. r.now) result (tag_at tag.now bytes.now) }
{
    match bytes.strip_prefix(tag) {
        Some(rest) => Ok(rest),
        None => Err(BundleError::NotBundle),
    }
}

/// Whether a text begins with a byte.
pub fn begins_with(bytes: &[u8], byte: u8) -> bool
    ensures { result ≡ begins byte bytes.now }
{
    match bytes {
        [first, ..] => *first == byte,
        [] => false,
    }
}

fn is_digit(byte: u8) -> bool
    ensures { result ≡ is_digit byte }
{
    b'0' <= byte && byte <= b'9'
}

/// How many digits a text begins with.
fn run_len(bytes: &[u8]) -> usize
    ensures within { result ≤ length bytes.now }
    ensures run { take result bytes.now ≡ digits_of bytes.now }
    ensures rest { drop result bytes.now ≡ behind_digits bytes.now }
{
    let mut len = 0;
    while len < bytes.len() && is_digit(bytes[len]) {
        len += 1;
    }
    len
}

/// Whether digits are `0`, or have no leading 0.
fn is_plain(digits: &[u8]) -> bool
    ensures { result ≡ is_plain digits.now }
{
    match digits {
        [] => false,
        [_] => true,
        [first, ..] => *first != b'0',
    }
}

/// The value with one more digit, or none where it is above `most`.
fn with_digit(most: u128, value: u128, digit: u8) -> Option<u128>
    ensures some { IfSome result (λ n. (n ≡ 10 * value + (digit - 48)) × (n ≤ most)) }
    ensures none { IfNone result (most < 10 * value + (digit - 48)) }
{
    let sum = value
        .checked_mul(10)?
        .checked_add(u128::from(digit.saturating_sub(b'0')))?;
    if sum <= most { Some(sum) } else { None }
}

/// The value of digits, or none where it is above `most`.
fn value_of(digits: &[u8], most: u128) -> Option<u128>
    ensures some { IfSome result (λ n. (n ≡ value_from 0 digits.now) × (n ≤ most)) }
    ensures none { IfNone result (most < value_from 0 digits.now) }
{
    let mut value = 0;
    for digit in digits {
        value = with_digit(most, value, *digit)?;
    }
    Some(value)
}

/// The value of plain digits of at most `most`.
#[tactic(auto, unfolding(crate::specs::steps::Reading::plain_value))]
fn value(digits: &[u8], most: u128) -> Result<u128, BundleError>
    ensures value { Gives (λ n. n) result (plain_value most digits.now) }
    ensures most { IfOk result (λ n. n ≤ most) }
{
    if !is_plain(digits) {
        return Err(BundleError::NotBundle);
    }
    match value_of(digits, most) {
        Some(value) => Ok(value),
        None => Err(BundleError::NotBundle),
    }
}

/// A number of at most `most`, with the byte `end` after it.
#[tactic(auto, unfolding(crate::specs::steps::Reading::number_at))]
pub fn number(bytes: &[u8], end: u8, most: u128) -> Result<(u128, &[u8]), BundleError>
    ensures value { Gives (λ r. (r.0, r.1.now)) result (number_at end most bytes.now) }
    ensures most { IfOk result (λ r. r.0 ≤ most) }
{
    let (digits, rest) = bytes.split_at(run_len(bytes));
    let value = value(digits, most)?;
    let rest = behind(rest, &[end])?;
    Ok((value, rest))
}

/// A number below 0 after its `-`, from `-most` on.
#[tactic(auto, unfolding(crate::specs::steps::Reading::below_zero_at))]
fn below_zero(bytes: &[u8], end: u8, most: u128) -> Result<(i128, &[u8]), BundleError>
    requires { most < 2 ^ 127 }
    ensures value { Gives (λ r. (r.0, r.1.now)) result (below_zero_at end most bytes.now) }
    ensures most { IfOk result (λ r. IsFrom most 0 r.0) }
{
    let (size, rest) = number(bytes, end, most)?;
    if size == 0 {
        return Err(BundleError::NotBundle);
    }
    Ok((-(size as i128), rest))
}

/// A number from `-low` to `high`, with the byte `end` after it.
#[tactic(auto, unfolding(crate::specs::steps::Reading::signed_at))]
pub fn signed(bytes: &[u8], end: u8, low: u128, high: u128) -> Result<(i128, &[u8]), BundleError>
    requires low { low < 2 ^ 127 }
    requires high { high < 2 ^ 127 }
    ensures value { Gives (λ r. (r.0, r.1.now)) result (signed_at end low high bytes.now) }
    ensures most { IfOk result (λ r. IsFrom low high r.0) }
{
    if begins_with(bytes, b'-') {
        return below_zero(bytes.split_at(1).1, end, low);
    }
    let (size, rest) = number(bytes, end, high)?;
    Ok((size as i128, rest))
}

/// The number of a thing.
pub fn thing(bytes: &[u8], end: u8) -> Result<(u32, &[u8]), BundleError>
    ensures { Gives (λ r. (r.0, r.1.now)) result (number_at end max_thing bytes.now) }
{
    let (number, rest) = number(bytes, end, u32::MAX as u128)?;
    Ok((number as u32, rest))
}

/// How many things there are.
pub fn count(bytes: &[u8], end: u8) -> Result<(u64, &[u8]), BundleError>
    ensures { Gives (λ r. (r.0, r.1.now)) result (number_at end max_count bytes.now) }
{
    let (number, rest) = number(bytes, end, u64::MAX as u128)?;
    Ok((number as u64, rest))
}

/// A number of 64 bits.
pub fn long(bytes: &[u8], end: u8) -> Result<(i64, &[u8]), BundleError>
    ensures { Gives (λ r. (r.0, r.1.now)) result (signed_at end (2 ^ 63) (2 ^ 63 - 1) bytes.now) }
{
    let (number, rest) = signed(bytes, end, 1 << 63, (1 << 63) - 1)?;
    Ok((number as i64, rest))
}
