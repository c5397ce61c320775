// A frame of a movement.
ghost use Rattle.std.specs.Prelude.{◌≡◌};
ghost use Rattle.tra4_text.specs.Rules.{is_frame};

// Whether a frame is 0 or more and below the total.
pub fn is_frame(total: i64, frame: i64) -> bool
    ensures { result ≡ is_frame total frame }
{
    0 <= frame && frame < total
}
