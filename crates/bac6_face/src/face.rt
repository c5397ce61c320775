// A face: a row of eleven numbers.
ghost use Rattle.std.specs.Prelude.{◌≡◌, ◌≤◌};
ghost use Rattle.parse_cursor.specs.Internal.Cursors.{reads, from};
ghost use Rattle.bac6_face.specs.Internal.Into.{corners_into, face_into};

use parse_cursor::Cursor;
use parse_numbers::Form;

// What stands in a face after its first i3 or i4, and its row to the table from index `to` on.
fn corners(
    text: &[u8],
    c: Cursor,
    material: i64,
    word: &[u8],
    size: u8,
    group: i64,
    out: &mut [i64],
    to: usize,
) -> Cursor
    requires { size ≤ 4 }
    ensures { reads text.now result out.new ≡ from text.now c (corners_into material word.now size group to out.old) }
{
    let mut row = [-1i64; 11];
    row[0] = material;
    row[1] = i64::from(size);
    row[10] = group;
    let width = usize::from(size);
    let vertices = parse_rows::numbers(text, c, Form::Int, width, &mut row, 2);
    let d = parse_cursor::closing(text, vertices);
    let uvs = parse_rows::row(text, d, word, 0, Form::Int, width, &mut row, 6);
    table_rows::store(out, to, &row);
    parse_cursor::closing(text, uvs)
}

// What stands in a face after its (, its row to the table from index `to` on; numbers past the table's end are dropped. Where the cursor has
// refused, what the table holds is free.
pub fn face_tail(text: &[u8], c: Cursor, group: i64, out: &mut [i64], to: usize) -> Cursor
    ensures { reads text.now result out.new ≡ from text.now c (face_into group to out.old) }
{
    let d = parse_cursor::keyword(text, c, b"face");
    let (material, at) = parse_numbers::number(text, d, Form::Int)?;
    let e = parse_cursor::opening(text, Ok(at));
    let (k, inside) = parse_words::one_of(text, e, b"i3 i4", 2)?;
    if k == 0 {
        return corners(text, Ok(inside), material, b"i3", 3, group, out, to);
    }
    corners(text, Ok(inside), material, b"i4", 4, group, out, to)
}
