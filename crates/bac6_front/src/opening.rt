// The front of a figure's text.
ghost use Rattle.std.specs.Prelude.{◌≡◌, ◌≤◌, length, IfOk};
ghost use Rattle.parse_cursor.specs.Internal.Cursors.{from, parsed};
ghost use Rattle.bac6_front.specs.Internal.Answers.{front_value};
ghost use Rattle.bac6_front.specs.Internal.Front.{front_into};

use crate::lists::{materials, normals, points};
use bac6_section::section;
use parse_cursor::{Cursor, Parsed, opened};
use parse_numbers::Form;

// The name's place and length, how many rows each list has, and the index after them in the table, or its end.
#[derive(Clone, Copy, PartialEq, Eq)]
pub struct Front {
    pub place: usize,
    pub length: usize,
    pub textures: usize,
    pub colours: usize,
    pub materials: usize,
    pub points: usize,
    pub normals: usize,
    pub end: usize,
}

// Reads the front, its rows one after the other over the table's first numbers; those past its end are dropped.
// Where it is refused, what the table holds is free.
pub fn read_front(text: &[u8], c: Cursor, rows: &mut [i64]) -> Parsed<Front>
    ensures content { parsed text.now result (λ r. front_value r rows.new) ≡ from text.now c (front_into (0, rows.old)) }
    ensures within { IfOk result (λ p. p.0.end ≤ length rows.new) }
{
    let head = parse_text::head(text, c, b"bacVersion", b"6.0");
    let (name, named) = parse_names::optional_name(text, opened(text, head, b"Figure"))?;
    let (t, textured) = section(text, Ok(named), b"Textures", b"i2", Form::Int, 2, rows, 0)?;
    let (k, coloured) = section(
        text,
        Ok(textured),
        b"Colors",
        b"f3",
        Form::Float,
        3,
        rows,
        t.end,
    )?;
    let (m, made) = materials(text, Ok(coloured), rows, k.end)?;
    let (p, placed) = points(text, Ok(made), rows, m.end)?;
    let (v, past) = normals(text, Ok(placed), rows, p.end)?;
    let front = Front {
        place: name.place,
        length: name.length,
        textures: t.count,
        colours: k.count,
        materials: m.count,
        points: p.count,
        normals: v.count,
        end: v.end,
    };
    Ok((front, past))
}
