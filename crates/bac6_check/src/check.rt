// The rules in order, each list from its place in the rows on.
ghost use Rattle.std.specs.Prelude.{◌≡◌, drop};
ghost use Rattle.refusal.specs.Internal.Answers.{refusal};
ghost use Rattle.refusal.specs.Rules.{or_else};
ghost use Rattle.bac6_text.specs.Rules.{bones_fault};
ghost use Rattle.bac6_bone_rules.specs.Internal.Bones.{flags_in};
ghost use Rattle.bac6_rules.specs.Internal.Order.{later_fault};
ghost use Rattle.bac6_layout.specs.Internal.Places.{materials_from, bones_from, faces_from};
ghost use Rattle.bac6_check.specs.Internal.Rows.{rows_fault, PlacedIn, RowsLeft};

use bac6_layout::row_ends;
use refusal::Refusal;
use table_counts::FigureCounts;

// Rules 11 to 13.
fn later_fault(n: FigureCounts, claims: Result<(), Refusal>, rows: &[i64]) -> Result<(), Refusal>
    ensures { refusal result ≡ later_fault n (refusal claims) (drop (materials_from n) rows.now) (drop (faces_from n) rows.now) }
{
    let e = row_ends(n, rows.len());
    let m = e.colours;
    let f = e.uvs;
    bac6_rules::later_fault(n, claims, &rows[m..], &rows[f..])
}

// Rules 10 to 13, and the bones are given their parents.
fn placed_fault(
    n: FigureCounts,
    claims: Result<(), Refusal>,
    rows: &mut [i64],
) -> Result<(), Refusal>
    ensures answer { refusal result ≡ or_else (bones_fault (flags_in n.bones (drop (bones_from n) rows.old))) (later_fault n (refusal claims) (drop (materials_from n) rows.old) (drop (faces_from n) rows.old)) }
    ensures content { PlacedIn n rows.old rows.new }
{
    let later = later_fault(n, claims, rows);
    let e = row_ends(n, rows.len());
    let b = e.normals;
    bac6_bone_rules::place_bones(&mut rows[b..], n.bones)?;
    later
}

// The first fault of the rows, where `claims` is what reading the vertex entries found of rule 11.
// The bones are given their parents, unless rule 8 or 9 refuses.
pub fn first_fault(
    n: FigureCounts,
    claims: Result<(), Refusal>,
    rows: &mut [i64],
) -> Result<(), Refusal>
    ensures answer { refusal result ≡ rows_fault n (refusal claims) rows.old }
    ensures content { RowsLeft n rows.old rows.new }
{
    bac6_rules::counts_fault(n)?;
    placed_fault(n, claims, rows)
}
