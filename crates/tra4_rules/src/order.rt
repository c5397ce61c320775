// Rules 8 and 14 to 16 in order: of a movement's faults the lowest number, with its lowest row.
ghost use Rattle.std.specs.Prelude.{◌≡◌};
ghost use Rattle.refusal.specs.Internal.Answers.{refusal};
ghost use Rattle.tra4_rules.specs.Internal.Order.{tables_fault};

use crate::count::{counts_fault, total_fault};
use refusal::Refusal;
use tra4_frames::patterns_fault;
use tra4_keys::keys_fault;

// The first fault of the tables.
pub fn first_fault(
    total: i64,
    bone_count: usize,
    key_count: usize,
    pattern_count: usize,
    bones: &[i64],
    keys: &[i64],
    patterns: &[i64],
) -> Result<(), Refusal>
    ensures { refusal result ≡ tables_fault total bone_count key_count pattern_count bones.now keys.now patterns.now }
{
    counts_fault(bone_count, key_count, pattern_count)?;
    total_fault(total)?;
    keys_fault(total, bones, bone_count, keys)?;
    patterns_fault(total, patterns, pattern_count)
}
