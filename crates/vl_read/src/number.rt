//! Numbers by their digits.

ghost use Rattle.std.specs.Prelude.{◌≡◌, ◌+◌, ◌*◌, ◌<◌, ◌≤◌, ◌^◌, ◌&&◌, ℕ, Some, None, if◌then◌else◌, nat_lt, IsTrue, length};
ghost use Rattle.std.specs.Char.{digit_value};
ghost use Rattle.std.specs.Str.Parse.{digits_value};
ghost use Rattle.vl_tree.specs.Tokens as tokens;

fn digit(b: u8) -> u64
    ensures { result ≡ digit_value b }
{
    if b < 48 {
        36
    } else if b < 58 {
        b as u64 - 48
    } else if b < 65 {
        36
    } else if b < 91 {
        b as u64 - 55
    } else if b < 97 {
        36
    } else if b < 123 {
        b as u64 - 87
    } else {
        36
    }
}

/// Whether each byte is a digit of the base.
fn all_digits(base: u64, bytes: &[u8]) -> bool
    ensures { result ≡ tokens.all_digits base bytes.now }
{
    bytes.iter().all(|d| digit(*d) < base)
}

/// The number that follows another by one digit, if it fits.
fn next(base: u64, number: u64, d: u64) -> Option<u64>
    ensures { result ≡ (if nat_lt (number * base + d) (2 ^ 64) then Some (number * base + d) else None) }
{
    number.checked_mul(base)?.checked_add(d)
}

/// The number that the digits write, if it fits.
fn value(base: u64, digits: &[u8]) -> Option<u64>
    requires { 0 < base }
    ensures { result
        ≡ (if nat_lt (digits_value base digits.now) (2 ^ 64) then Some (digits_value base digits.now) else None) }
{
    let mut number = 0;
    for d in digits {
        number = next(base, number, digit(*d))?;
    }
    Some(number)
}

/// Whether a value has at most so many bits.
fn below(value: u64, width: u32) -> bool
    requires { width ≤ 64 }
    ensures { result ≡ nat_lt value (2 ^ width) }
{
    if width == 64 {
        return true;
    }
    value < 1 << width
}

#[tactic(auto, using(crate::proofs::Numbers::base_some))]
/// The number of a constant of the width, if the digits write one.
pub fn value_of(width: u32, base: u64, digits: &[u8]) -> Option<u64>
    requires { width ≤ 64 }
    ensures { result ≡ (if tokens.is_value width base digits.now then Some (digits_value base digits.now) else None) }
{
    if !all_digits(base, digits) || digits.is_empty() || 65 <= digits.len() {
        return None;
    }
    let number = value(base, digits)?;
    if !below(number, width) {
        return None;
    }
    Some(number)
}

/// The width that the bytes write, if they do.
pub fn width_of(bytes: &[u8]) -> Option<u32>
    ensures { result ≡ (if tokens.is_width bytes.now then Some (digits_value 10 bytes.now) else None) }
{
    if !all_digits(10, bytes) || bytes.is_empty() || 3 <= bytes.len() {
        return None;
    }
    if bytes[0] == 48 {
        return None;
    }
    let number = value(10, bytes)?;
    if 64 < number {
        return None;
    }
    Some(number as u32)
}

#[tactic(auto, using(crate::proofs::Numbers::plain_fits))]
/// The plain number that the bytes write, if they do.
pub fn plain_of(bytes: &[u8]) -> Option<u32>
    ensures { result ≡ (if tokens.is_plain bytes.now then Some (digits_value 10 bytes.now) else None) }
{
    if !all_digits(10, bytes) || bytes.is_empty() || 10 <= bytes.len() {
        return None;
    }
    let number = value(10, bytes)?;
    Some(number as u32)
}

/// The base that a letter names, and 0 where it names none.
pub fn base_of(b: u8) -> u64
    ensures { result ≡ tokens.base_of b }
{
    match b {
        98 => 2,
        100 => 10,
        104 => 16,
        _ => 0,
    }
}
