// One pattern line by itself.
ghost use Rattle.std.specs.Prelude.{◌≡◌, [], ◌∷◌, ℤ};
ghost use Rattle.tra4_text.specs.Rules.{pattern_fine};

use crate::frame::is_frame;

// Whether a pattern line's frame is one of the movement's and its group 0 or more.
pub fn pattern_fits(total: i64, frame: i64, group: i64) -> bool
    ensures { (flag : ℤ) → result ≡ pattern_fine total (frame ∷ group ∷ flag ∷ []) }
{
    is_frame(total, frame) && 0 <= group
}
