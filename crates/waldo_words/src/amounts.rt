//! The text of a shift.
ghost use Rattle.std.specs.Prelude.{◌≡◌, IfSome};
ghost use Rattle.waldo_words.specs.Legal.{IsShift};
ghost use Rattle.waldo_words.specs.Shifts.{amount_of, shift_of};

use crate::numbers::{decimal, within};
use crate::shifts::{Amount, ShiftWord};
use text_reading::cut;

/// The shift of a text such as `6:0:1` or `12:0:key*1`: a message, a word of it and an amount.
#[tactic(auto, unfolding(crate::specs::Shifts::shift_of))]
pub(crate) fn shift_word(text: &[u8]) -> Option<ShiftWord>
    ensures value { result ≡ shift_of text.now }
    ensures legal { IfSome result IsShift }
{
    let (front, rest) = cut(text, b':');
    let (middle, last) = cut(rest?, b':');
    let last = last?;
    let message = within(0, 50, front)?;
    let word = within(0, 65_535, middle)?;
    let amount = amount(last)?;
    Some(ShiftWord {
        message,
        word,
        amount,
    })
}

// A decimal, or `key*` and a decimal.
#[tactic(auto, unfolding(crate::specs::Shifts::amount_of))]
fn amount(text: &[u8]) -> Option<Amount>
    ensures { result ≡ amount_of text.now }
{
    match cut(text, b'*') {
        (digits, None) => match decimal(digits) {
            None => None,
            Some(n) => Some(Amount::Plain(n)),
        },
        (front, Some(digits)) => {
            if front != b"key".as_slice() {
                return None;
            }
            match decimal(digits) {
                None => None,
                Some(n) => Some(Amount::TimesKey(n)),
            }
        }
    }
}
