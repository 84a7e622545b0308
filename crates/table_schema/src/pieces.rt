ghost use Rattle.std.specs.Prelude.{◌≡◌, Some, None};
ghost use Rattle.std.specs.Option.{option_copied};
ghost use Rattle.text_reading.specs.Reading.{Reads};
ghost use Rattle.table_schema.specs.Schema.{bits_of, start_of, step_of, column_of};

use crate::faults::SchemaWhy;
use crate::names::is_column_name;
use text_reading::{cut, number};

#[tactic(auto, unfolding(crate::specs::Schema::bits_of))]
fn bits(text: &[u8]) -> Option<u8>
    ensures { result ≡ bits_of text.now }
{
    match text {
        [b] if *b >= b'1' && *b <= b'8' => Some(*b - b'0'),
        _ => None,
    }
}

fn start(text: Option<&[u8]>) -> Option<u64>
    ensures { result ≡ start_of (option_copied text.entry) }
{
    match text {
        None => Some(0),
        Some(text) => number(text),
    }
}

fn step(text: Option<&[u8]>) -> Option<u64>
    ensures { result ≡ step_of (option_copied text.entry) }
{
    match text {
        None => Some(1),
        Some(text) => match number(text) {
            None => None,
            Some(n) => { if n == 0 { None } else { Some(n) } }
        },
    }
}

/// The name, bits, start and step that a piece gives, or its first fault.
#[tactic(auto, unfolding(crate::specs::Schema::column_of))]
pub(crate) fn parts(piece: &[u8]) -> Result<(&[u8], u8, u64, u64), SchemaWhy>
    ensures { Reads (λ p. record { name = p.0.now; bits = p.1; start = p.2; step = p.3 }) result (column_of piece.now) }
{
    let (name, body) = cut(piece, b':');
    let body = match body {
        None => &[],
        Some(body) => body,
    };
    let (front, step_text) = cut(body, b'/');
    let (bits_text, start_text) = cut(front, b'@');
    if !is_column_name(name) {
        return Err(SchemaWhy::Name);
    }
    let Some(bits) = bits(bits_text) else {
        return Err(SchemaWhy::Bits);
    };
    let Some(start) = start(start_text) else {
        return Err(SchemaWhy::Start);
    };
    let Some(step) = step(step_text) else {
        return Err(SchemaWhy::Step);
    };
    Ok((name, bits, start, step))
}
