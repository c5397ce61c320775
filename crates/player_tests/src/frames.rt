// A key's frame.
ghost use Rattle.std.specs.Prelude.{◌≡◌, [], ◌∷◌, ℤ, pos};
ghost use Rattle.std.proofs.Math.Option.{some};
ghost use Rattle.tra4_text.specs.Rules.{key_fine};

use tra4_tests::is_frame;

// Whether a key's frame may follow another's.
pub fn follows(total: i64, before: usize, f: i64) -> bool
    ensures { (v : ℤ) → result ≡ key_fine total (some (pos before)) (f ∷ v ∷ []) }
{
    is_frame(total, f) && before < f as usize
}
