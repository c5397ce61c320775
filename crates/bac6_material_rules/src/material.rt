// Rule 12: a material's indices and levels.
ghost use Rattle.std.specs.Prelude.{◌≡◌, length};
ghost use Rattle.refusal.specs.Internal.Answers.{refusal};
ghost use Rattle.bac6_text.specs.Rules.{is_level, material_fine};
ghost use Rattle.refusal.specs.FirstBad.{first_bad};
ghost use Rattle.table_columns.specs.Parts.{rows_of};

use refusal::Refusal;
use table_columns::{
    MATERIAL_ALPHA, MATERIAL_COLOUR, MATERIAL_SHININESS, MATERIAL_SPECULAR, MATERIAL_TEXTURE,
};
use table_counts::MATERIAL_WIDTH;
use table_references::is_index;

// The first of `count` rows of 9 that breaks the rule; a row that is not whole is not looked at.
pub fn material_fault(
    table: &[i64],
    count: usize,
    textures: usize,
    colours: usize,
) -> Result<(), Refusal>
    ensures { refusal result ≡ first_bad 12 (material_fine textures colours) 0 (rows_of 9 count table.now) }
{
    for row in 0..count.min(table.len() / MATERIAL_WIDTH) {
        let base = row * MATERIAL_WIDTH;
        if !is_fine(&table[base..base + MATERIAL_WIDTH], textures, colours) {
            return Err(Refusal {
                number: 12,
                place: row,
            });
        }
    }
    Ok(())
}

fn is_fine(m: &[i64], textures: usize, colours: usize) -> bool
    requires { length m.now ≡ 9 }
    ensures { result ≡ material_fine textures colours m.now }
{
    is_index(textures, m[MATERIAL_TEXTURE])
        && is_index(colours, m[MATERIAL_COLOUR])
        && is_level(m[MATERIAL_SPECULAR])
        && is_level(m[MATERIAL_ALPHA])
        && is_level(m[MATERIAL_SHININESS])
}

// A level in millionths, 0 to 1.
fn is_level(z: i64) -> bool
    ensures { result ≡ is_level z }
{
    0 <= z && z <= 1000000
}
