// The entries of `vertexIndices`, each tried as it is read (rule 11).
ghost use Rattle.std.specs.Prelude.{◌≡◌, Ok};
ghost use Rattle.parse_cursor.specs.Internal.Cursors.{from, parsed};
ghost use Rattle.bac6_owners.specs.Internal.Claims.{claimed_one};
ghost use Rattle.bac6_entries.specs.Internal.Into.{entries_into};

use parse_cursor::Parsed;
use parse_numbers::Form;
use table_columns::VertexRow;

// An entry, tried only while every entry before it was free.
fn tried(owners: &mut [i64], points: usize, z: i64, bone: i64, fine: bool) -> bool
    ensures { (result, owners.new) ≡ claimed_one points bone (fine, owners.old) z }
{
    if fine {
        return bac6_owners::claim(owners, points, VertexRow(z), bone);
    }
    false
}

// Claims up to ), which is taken too; and whether every entry so far was free.
pub fn entries(
    text: &[u8],
    start: usize,
    points: usize,
    bone: i64,
    owners: &mut [i64],
    fine: bool,
) -> Parsed<bool>
    ensures { parsed text.now result (λ f. (f, owners.new)) ≡ from text.now (Ok start) (entries_into points bone (fine, owners.old)) }
{
    let mut at = start;
    let mut free = fine;
    loop {
        let t = text_tokens::next(text, at);
        if text_kinds::is_closing(t.kind) {
            return Ok((free, t.end));
        }
        let (z, past) = parse_numbers::number(text, Ok(at), Form::Int)?;
        free = tried(owners, points, z, bone, free);
        at = past;
    }
}
