//! Numbers within limits.
ghost use Rattle.std.specs.Prelude.{◌≡◌, ◌+◌, ◌-◌, ◌*◌, ◌^◌, ◌<◌, ◌≤◌, IfSome, SomeIff};
ghost use Rattle.table_schema.specs.Widths.{Fits};
ghost use Rattle.waldo_words.specs.Legal.{IsFew};
ghost use Rattle.waldo_words.specs.Values.{bits_in, capacity_of, decimal_of, number_within, wide_digits_of};

use table_schema::Schema;
use text_reading::number;

// The most rows of a table.
pub(crate) const MOST_ROWS: u64 = 65_536;

/// The number of a text, where it is from low to high.
#[tactic(auto, unfolding(crate::specs::Values::number_within))]
pub(crate) fn within(low: u64, high: u64, text: &[u8]) -> Option<u64>
    ensures value { result ≡ number_within low high text.now }
    ensures limits { IfSome result (λ n. (low ≤ n) × (n ≤ high)) }
{
    let value = number(text)?;
    if low <= value && value <= high {
        Some(value)
    } else {
        None
    }
}

/// The number of a text, where it is from 1 to 16.
pub(crate) fn few(text: &[u8]) -> Option<u8>
    ensures value { result ≡ number_within 1 16 text.now }
    ensures limits { IfSome result IsFew }
{
    match within(1, 16, text) {
        None => None,
        Some(value) => Some(value as u8),
    }
}

/// The number of a text, where it has at most 32 bits.
pub(crate) fn start_number(text: &[u8]) -> Option<u32>
    ensures { result ≡ number_within 0 4294967295 text.now }
{
    match within(0, 4_294_967_295, text) {
        None => None,
        Some(value) => Some(value as u32),
    }
}

/// The number of rows of a text, where a table of these columns may have room for that number.
#[tactic(auto, unfolding(crate::specs::Values::capacity_of))]
pub(crate) fn capacity(schema: &Schema, text: &[u8]) -> Option<u32>
    ensures value { result ≡ capacity_of schema.now text.now }
    ensures fits { IfSome result (Fits (bits_in schema.now)) }
{
    let rows = number(text)?;
    if rows > MOST_ROWS {
        return None;
    }
    let rows = rows as u32;
    if schema.widths().fits(rows) {
        Some(rows)
    } else {
        None
    }
}

/// The number of a text of 1 to 39 digits, where it is below 2^128. Leading zeros are allowed.
#[tactic(auto, unfolding(crate::specs::Values::decimal_of))]
pub(crate) fn decimal(text: &[u8]) -> Option<u128>
    ensures { result ≡ decimal_of text.now }
{
    if text.is_empty() || text.len() > 39 {
        return None;
    }
    wide_digits(text)
}

// The value of digits, where it is below 2^128. It only grows, so the first value past the end decides.
#[tactic(auto, using(crate::proofs::WideDigits::digits_too_large))]
fn wide_digits(text: &[u8]) -> Option<u128>
    ensures { result ≡ wide_digits_of 0 text.now }
{
    let mut value: u128 = 0;
    for b in text {
        if !b.is_ascii_digit() {
            return None;
        }
        match with_digit(value, *b) {
            None => return None,
            Some(next) => value = next,
        }
    }
    Some(value)
}

// The value with one digit more, where it is below 2^128.
fn with_digit(value: u128, digit: u8) -> Option<u128>
    requires { (48 ≤ digit) × (digit ≤ 57) }
    ensures { SomeIff result (value * 10 + (digit - 48) < 2 ^ 128) (value * 10 + (digit - 48)) }
{
    value.checked_mul(10)?.checked_add(u128::from(digit - b'0'))
}
