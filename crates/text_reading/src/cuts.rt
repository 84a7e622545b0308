ghost use Rattle.std.specs.Prelude.{◌++◌, [], ◌∷◌, ◌≡◌, ◌<◌, IfSome, length};
ghost use Rattle.std.specs.Option.{option_copied};
ghost use Rattle.text_reading.specs.Cut.{cut_at, pieces, pieces_left};

/// What stands before the first mark, or all of the text, and what stands after it, where there is one.
/// Both are parts of the text itself.
pub fn cut(bytes: &[u8], mark: u8) -> (&[u8], Option<&[u8]>)
    ensures front { result.0.now ≡ (cut_at mark bytes.now).0 }
    ensures after { option_copied result.1 ≡ (cut_at mark bytes.now).1 }

    // So a reader that goes on with what is after the mark comes to an end.
    ensures shorter { IfSome result.1 (λ a. length a.now < length bytes.now) }
{
    for (i, b) in bytes.iter().enumerate() {
        if *b == mark {
            return (&bytes[..i], Some(&bytes[i + 1..]));
        }
    }
    (bytes, None)
}

/// What stands before the last mark, where there is one, and what stands after it, or all of the text. Both are parts of the text
/// itself.
#[tactic(auto, using(crate::proofs::CutLaws::last_hit, crate::proofs::CutLaws::last_miss))]
pub fn cut_last(bytes: &[u8], mark: u8) -> (Option<&[u8]>, &[u8])
    ensures { pieces mark bytes.now ≡ pieces_left mark (option_copied result.0) ++ result.1.now ∷ [] }
{
    let mut end = bytes.len();
    while end > 0 {
        end -= 1;
        if bytes[end] == mark {
            return (Some(&bytes[..end]), &bytes[end + 1..]);
        }
    }
    (None, bytes)
}

/// How many pieces a text has that is cut at each mark: one more than it has marks.
#[tactic(auto, using(crate::proofs::CutLaws::pieces_hit, crate::proofs::CutLaws::pieces_miss))]
pub fn count_pieces(bytes: &[u8], mark: u8) -> usize
    ensures { result ≡ length (pieces mark bytes.now) }
{
    let mut marks = 0;
    for b in bytes {
        if *b == mark {
            marks += 1;
        }
    }
    marks + 1
}
