// Rule 9: normals as many as points.
ghost use Rattle.std.specs.Prelude.{◌≡◌};
ghost use Rattle.refusal.specs.Internal.Answers.{refusal};
ghost use Rattle.bac6_text.specs.Rules.{normals_fault};

use refusal::Refusal;

// Whether there are as many normals as points.
pub(crate) fn normals_fault(points: usize, normals: usize) -> Result<(), Refusal>
    ensures { refusal result ≡ normals_fault points normals }
{
    if points != normals {
        return Err(Refusal {
            number: 9,
            place: normals,
        });
    }
    Ok(())
}
