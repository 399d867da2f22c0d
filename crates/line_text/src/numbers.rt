//! The numbers and the bytes that words spell.
ghost use Rattle.std.specs.Prelude.{◌≡◌, ◌≤◌, ◌<◌, ◌^◌, ◌≤ℤ◌, length, take, if◌then◌else◌, Some, None, IfOk, IfSome, ◌*◌, ◌-◌};
ghost use Rattle.std.specs.List.{list_all};
ghost use Rattle.line_text.specs.Integers.{is_negative, digits_of, integer_of, integer_in};
ghost use Rattle.line_text.specs.Numbers.{is_digit, decimal_value, is_number, number_in};
ghost use Rattle.line_text.specs.Answers.{Says};
ghost use Rattle.line_text.specs.Hex.{hex_bytes};

use crate::fault::Why;

// Returns the value of a digit.
fn digit(byte: u8) -> Option<u8>
    ensures value { result ≡ (if is_digit byte then Some (byte - 48) else None) }
    ensures small { IfSome result (λ value. value ≤ 9) }
{
    if byte >= b'0' && byte <= b'9' {
        Some(byte - b'0')
    } else {
        None
    }
}

// Returns the number that up to 19 digits spell; any such number fits.
fn digits(word: &[u8]) -> Option<u64>
    requires { length word.now ≤ 19 }
    ensures value { result ≡ (if list_all is_digit word.now then Some (decimal_value word.now) else None) }
    ensures small { IfSome result (λ number. number < 10 ^ 19) }
{
    let mut number = 0;
    for byte in word {
        number = 10 * number + u64::from(digit(*byte)?);
    }
    Some(number)
}

// Returns the number that 1 to 20 decimal digits spell. All but the last fit in 64 bits, which take less time than 128.
fn unsigned(word: &[u8]) -> Result<u128, Why>
    ensures value { result ≡ (if is_number word.now then Ok (decimal_value word.now) else Err Why.BadNumber) }
    ensures small { IfOk result (λ number. number < 10 ^ 20) }
{
    let Some((last, front)) = word.split_last() else {
        return Err(Why::BadNumber);
    };
    if front.len() > 19 {
        return Err(Why::BadNumber);
    }
    let tens = digits(front).ok_or(Why::BadNumber)?;
    let ones = digit(*last).ok_or(Why::BadNumber)?;
    Ok(10 * u128::from(tens) + u128::from(ones))
}

/// Returns the number from `low` to `high` that a word spells by 1 to 20 decimal digits, leading zeros allowed.
///
/// Returns `BadNumber` if the word spells no number, and otherwise `OutOfRange` if the number isn't from `low` to `high`. Allocates
/// nothing.
pub fn long_number(word: &[u8], low: u64, high: u64) -> Result<u64, Why>
    ensures value { result ≡ number_in low high word.now }
    ensures range { IfOk result (λ number. (low ≤ number) × (number ≤ high)) }
{
    let number = unsigned(word)?;
    if number < u128::from(low) || number > u128::from(high) {
        return Err(Why::OutOfRange);
    }
    Ok(number as u64)
}

/// Like [`long_number`], for numbers of 32 bits.
pub fn short_number(word: &[u8], low: u32, high: u32) -> Result<u32, Why>
    ensures value { result ≡ number_in low high word.now }
    ensures range { IfOk result (λ number. (low ≤ number) × (number ≤ high)) }
{
    let number = long_number(word, u64::from(low), u64::from(high))?;
    Ok(number as u32)
}

// Returns the integer that 1 to 20 decimal digits spell; if `signed`, one `-` may precede them.
fn integer(word: &[u8], signed: bool) -> Result<i128, Why>
    ensures { result ≡ integer_of signed word.now }
{
    match word {
        [b'-', digits @ ..] if signed => Ok(-(unsigned(digits)? as i128)),
        _ => Ok(unsigned(word)? as i128),
    }
}

/// Returns the number from `low` to `high` that a word spells by 1 to 20 decimal digits, leading zeros allowed. If
/// `signed`, one `-` may precede them.
///
/// Returns `BadNumber` if the word spells no number, and otherwise `OutOfRange` if the number isn't from `low` to `high`. Allocates
/// nothing.
pub fn number(word: &[u8], low: i128, high: i128, signed: bool) -> Result<i128, Why>
    ensures value { result ≡ integer_in low high signed word.now }
    ensures range { IfOk result (λ number. (low ≤ℤ number) × (number ≤ℤ high)) }
{
    let number = integer(word, signed)?;
    if number < low || number > high {
        return Err(Why::OutOfRange);
    }
    Ok(number)
}

/// Puts the bytes that a word spells, each by two hexadecimal digits of either case, at the beginning of `room`, and returns how many
/// they are: 1 at least. Allocates nothing.
///
/// Returns `BadHex` if the word spells no bytes, or more than `room` has.
pub fn hex_bytes(word: &[u8], room: &mut [u8]) -> Result<usize, Why>
    requires { 2 * length room.old < 2 ^ 64 }
    ensures bytes { Says (λ count. take count room.new) result (hex_bytes (length room.old) word.now) }
    ensures some { IfOk result (λ count. 1 ≤ count) }
    ensures few { IfOk result (λ count. count ≤ length room.old) }
{
    if word.len() < 2 || word.len() > 2 * room.len() {
        return Err(Why::BadHex);
    }
    let count = word.len() / 2;
    match hex::decode_to_slice(word, &mut room[..count]) {
        Ok(()) => Ok(count),
        Err(_) => Err(Why::BadHex),
    }
}
