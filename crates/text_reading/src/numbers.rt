ghost use Rattle.std.specs.Prelude.{◌≡◌};
ghost use Rattle.text_reading.specs.Number.{digits_of, number_of};

/// The number that a text is: 1 to 20 ASCII digits whose value is below 2^64. Leading zeros are allowed,
/// a sign or a space is not.
#[tactic(auto, unfolding(crate::specs::Number::number_of))]
pub fn number(bytes: &[u8]) -> Option<u64>
    ensures { result ≡ number_of bytes.now }
{
    if bytes.is_empty() || bytes.len() > 20 {
        return None;
    }
    digits(bytes)
}

// The value of digits, where it is below 2^64. It only grows, so the first value past the end decides.
#[tactic(auto, using(crate::proofs::Digits::digits_too_large))]
fn digits(bytes: &[u8]) -> Option<u64>
    ensures { result ≡ digits_of 0 bytes.now }
{
    let mut value: u64 = 0;
    for b in bytes {
        if !b.is_ascii_digit() {
            return None;
        }
        let next = value as u128 * 10 + (*b - b'0') as u128;
        if next > u64::MAX as u128 {
            return None;
        }
        value = next as u64;
    }
    Some(value)
}
