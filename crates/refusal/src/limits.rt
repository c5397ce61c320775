// Rule 8: how many rows each list has.
ghost use Rattle.std.specs.Prelude.{◌≡◌};
ghost use Rattle.refusal.specs.Internal.Answers.{refusal};
ghost use Rattle.refusal.specs.Rules.{too_many};

use crate::checked::Refusal;

// The first list with more rows than it may have; counts past the last of `mosts` are not looked at.
pub fn too_many(counts: &[usize], mosts: &[usize]) -> Result<(), Refusal>
    ensures { refusal result ≡ too_many 0 counts.now mosts.now }
{
    for i in 0..counts.len().min(mosts.len()) {
        if mosts[i] < counts[i] {
            return Err(Refusal {
                number: 8,
                place: i,
            });
        }
    }
    Ok(())
}
