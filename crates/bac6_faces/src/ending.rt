// The end of a figure: its faces and its groups.
ghost use Rattle.std.specs.Prelude.{◌≡◌};
ghost use Rattle.parse_cursor.specs.Internal.Cursors.{from, parsed};
ghost use Rattle.bac6_faces.specs.Internal.Into.{polygons_into};

use crate::group::{Polygons, group_list};
use crate::list::face_list;
use parse_cursor::{Cursor, Parsed};

// The faces of `Polygons`, and those of the groups of `DynamicPolygons` after them; the rest of a table is left as it is, and rows past its end are dropped.
// Where it is refused, what both tables hold is free.
pub fn polygons(text: &[u8], c: Cursor, faces: &mut [i64], names: &mut [i64]) -> Parsed<Polygons>
    ensures { parsed text.now result (λ p. (p.faces, faces.new, p.groups, names.new)) ≡ from text.now c (polygons_into faces.old names.old) }
{
    let begun = parse_cursor::opened(text, c, b"Polygons")?;
    let (count, at) = face_list(text, begun, -1, faces, 0)?;
    let (present, inside) = parse_optional::trailing(text, Ok(at), b"DynamicPolygons")?;
    if present {
        return group_list(text, inside, faces, count, names);
    }
    let alone = Polygons {
        faces: count,
        groups: 0,
    };
    Ok((alone, inside))
}
