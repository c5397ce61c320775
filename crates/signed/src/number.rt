// The magnitude of a signed number.
ghost use Rattle.std.specs.Prelude.{◌≡◌, nat_abs};

// How far a number is from zero.
pub fn magnitude(z: i64) -> u64
    ensures { result ≡ nat_abs z }
{
    z.unsigned_abs()
}
