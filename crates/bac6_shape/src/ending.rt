// The end of a figure's text: its faces and groups, and nothing after them.
ghost use Rattle.std.specs.Prelude.{◌≡◌, ◌≤◌, length};
ghost use Rattle.parse_cursor.specs.Internal.Cursors.{from, parsed};
ghost use Rattle.bac6_shape.specs.Internal.Steps.{end_step};

use bac6_faces::Polygons;
use parse_cursor::{Cursor, Parsed};

pub(crate) fn read_end(
    text: &[u8],
    c: Cursor,
    rows: &mut [i64],
    at: usize,
    names: &mut [i64],
) -> Parsed<Polygons>
    requires { at ≤ length rows.old }
    ensures { parsed text.now result (λ q. (q.faces, rows.new, q.groups, names.new)) ≡ from text.now c (end_step (at, rows.old) names.old) }
{
    let (polygons, read) = bac6_faces::polygons(text, c, &mut rows[at..], names)?;
    let past = parse_text::text_end(text, parse_cursor::closing(text, Ok(read)))?;
    Ok((polygons, past))
}
