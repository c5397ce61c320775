// Rules 8 and 14: how many rows each list has, and how many frames a movement has.
ghost use Rattle.std.specs.Prelude.{◌≡◌, [], ◌∷◌};
ghost use Rattle.refusal.specs.Internal.Answers.{refusal};
ghost use Rattle.refusal.specs.Rules.{too_many};
ghost use Rattle.tra4_text.specs.Rules.{total_fault};
ghost use Rattle.table_counts.specs.Counts.{movement_mosts};

use refusal::Refusal;
use table_counts::{MOST_BONES, MOST_KEYS, MOST_PATTERNS};

// The first list with more rows than it may have.
pub(crate) fn counts_fault(bones: usize, keys: usize, patterns: usize) -> Result<(), Refusal>
    ensures { refusal result ≡ too_many 0 (bones ∷ keys ∷ patterns ∷ []) movement_mosts }
{
    refusal::too_many(
        &[bones, keys, patterns],
        &[MOST_BONES, MOST_KEYS, MOST_PATTERNS],
    )
}

// Whether the total is 1 to 32,767.
pub(crate) fn total_fault(total: i64) -> Result<(), Refusal>
    ensures { refusal result ≡ total_fault total }
{
    if total < 1 || 32767 < total {
        return Err(Refusal {
            number: 14,
            place: 0,
        });
    }
    Ok(())
}
