// The lists of a figure's front that may not be left out.
ghost use Rattle.std.specs.Prelude.{◌≡◌, ◌≤◌, length, IfOk};
ghost use Rattle.parse_cursor.specs.Internal.Cursors.{from, parsed};
ghost use Rattle.bac6_text.specs.Grammar.{material_section, point_section, normal_section};
ghost use Rattle.bac6_section.specs.Internal.Lists.{list_into};

use bac6_section::{Listed, with_end};
use parse_cursor::{Cursor, Parsed, opened};
use parse_numbers::Form;
use table_counts::{MATERIAL_WIDTH, NORMAL_WIDTH, POINT_WIDTH};

pub(crate) fn materials(text: &[u8], c: Cursor, rows: &mut [i64], at: usize) -> Parsed<Listed>
    requires { at ≤ length rows.old }
    ensures { parsed text.now result (λ l. (l.count, (l.end, rows.new))) ≡ from text.now c (list_into 9 material_section (at, rows.old)) }
{
    let begun = opened(text, c, b"Materials");
    let k = bac6_materials::materials(text, begun, &mut rows[at..]);
    with_end(k, at, MATERIAL_WIDTH, rows.len())
}

pub(crate) fn points(text: &[u8], c: Cursor, rows: &mut [i64], at: usize) -> Parsed<Listed>
    ensures { parsed text.now result (λ l. (l.count, (l.end, rows.new))) ≡ from text.now c (list_into 3 point_section (at, rows.old)) }
{
    let begun = opened(text, opened(text, c, b"Vertices"), b"coords");
    let k = parse_lists::some_rows(text, begun, b"pnt", 0, Form::Float, POINT_WIDTH, rows, at);
    with_end(k, at, POINT_WIDTH, rows.len())
}

// With the bracket that closes the vertices.
pub(crate) fn normals(text: &[u8], c: Cursor, rows: &mut [i64], at: usize) -> Parsed<Listed>
    ensures content { parsed text.now result (λ l. (l.count, (l.end, rows.new))) ≡ from text.now c (list_into 3 normal_section (at, rows.old)) }
    ensures within { IfOk result (λ p. p.0.end ≤ length rows.new) }
{
    let begun = opened(text, c, b"normals");
    let (count, past) = parse_lists::rows(
        text,
        begun,
        b"vct",
        0,
        Form::Float,
        NORMAL_WIDTH,
        rows,
        at,
    )?;
    let closed = parse_cursor::closing(text, Ok(past))?;
    with_end(Ok((count, closed)), at, NORMAL_WIDTH, rows.len())
}
