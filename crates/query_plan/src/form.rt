ghost use Rattle.std.specs.Prelude.{◌≡◌, IfSome, option_map};
ghost use Rattle.table_schema.specs.declared.shapes.Kind.TheVariants.{Point, Interval};
ghost use Rattle.query_plan.specs.Reading.{said_of, up_to};

use table_schema::Kind;
use text_reading::{cut, number};

// Two numbers of an interval: what stands before its first point, and what stands after it.
fn interval<'a>(name: &'a [u8], low: &[u8], rest: &[u8]) -> Option<(&'a [u8], Kind, u64, u64)>
    ensures exact { option_map (λ s. record { name = s.0.now; kind = s.1; first = s.2; last = s.3 }) result
        ≡ up_to name.now low.now rest.now }
    ensures kind { IfSome result (λ s. s.1 ≡ Interval) }
{
    match rest {
        [b'.', high @ ..] => match (number(low), number(high)) {
            (Some(first), Some(last)) => Some((name, Kind::Interval, first, last)),
            _ => None,
        },
        _ => None,
    }
}

/// The name, the kind and the first and last number that a piece says.
#[tactic(auto, unfolding(crate::specs::Reading::said_of))]
pub(crate) fn said(piece: &[u8]) -> Option<(&[u8], Kind, u64, u64)>
    ensures exact { option_map (λ s. record { name = s.0.now; kind = s.1; first = s.2; last = s.3 }) result ≡ said_of piece.now }
    ensures point { IfSome result (λ s. s.1 ≡ Point → s.2 ≡ s.3) }
{
    let (front, Some(text)) = cut(piece, b'=') else {
        return None;
    };
    let (name, mark) = cut(front, b'<');
    if name.is_empty() {
        return None;
    }
    match mark {
        None => match cut(text, b'.') {
            (text, None) => {
                let n = number(text)?;
                Some((name, Kind::Point, n, n))
            }
            (low, Some(rest)) => interval(name, low, rest),
        },
        Some([]) => {
            let n = number(text)?;
            Some((name, Kind::AtMost, n, n))
        }
        Some(_) => None,
    }
}
