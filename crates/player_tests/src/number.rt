// Single numbers.
ghost use Rattle.std.specs.Prelude.{◌≡◌};
ghost use Rattle.player_spec.specs.Lookups.{is_float, is_asked};

// Millionths in FLOAT's range.
pub fn is_float(z: i64) -> bool
    ensures { result ≡ is_float z }
{
    signed::magnitude(z) <= 9999999999999
}

// Whether the total of frames is sound and the frame lies below it.
pub fn is_asked(total: i64, at: usize) -> bool
    ensures { result ≡ is_asked total at }
{
    1 <= total && total <= 32767 && at < total as usize
}
