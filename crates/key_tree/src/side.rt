ghost use Rattle.std.specs.Prelude.{◌≡◌, ◌<◌};
ghost use Rattle.key_tree.specs.Tree.{side_at};

use prg_chacha::Side;

/// The side that a number takes where `place` lower bits follow: the side of its bit `place`.
pub fn side_of(x: u8, place: usize) -> Side
    requires { place < 8 }
    ensures { result ≡ side_at x place }
{
    if (x >> place) % 2 == 1 {
        Side::Right
    } else {
        Side::Left
    }
}
