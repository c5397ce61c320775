// The shape of a figure's text.
ghost use Rattle.std.specs.Prelude.{◌≡◌};
ghost use Rattle.text_tokens.specs.Tokens.{lex};
ghost use Rattle.parse_cursor.specs.Internal.Cursors.{parsed};
ghost use Rattle.bac6_shape.specs.Internal.Answers.{kept_by};
ghost use Rattle.bac6_shape.specs.Internal.Parse.{figure_into};

use crate::bones::read_bones;
use crate::ending::read_end;
use parse_numbers::Form;
use table_counts::FigureCounts;

// The name's place and length, how many rows each list has, and the row of the first bone whose claims are at fault, if there is one.
#[derive(Clone, Copy)]
pub struct Parsed {
    pub place: usize,
    pub length: usize,
    pub counts: FigureCounts,
    pub fault: Option<usize>,
}

// Reads a whole text: its lists' rows in text order over the first numbers of `rows`, the bone of each vertex over `owners`, and the groups' names over `names`; numbers past a table's end are dropped.
// Where it is refused, what the tables hold is free.
pub fn parse(
    text: &[u8],
    rows: &mut [i64],
    owners: &mut [i64],
    names: &mut [i64],
) -> parse_cursor::Parsed<Parsed>
    ensures { parsed text.now result (λ p. kept_by p rows.new owners.new names.new) ≡ figure_into rows.old owners.old names.old (lex text.now) }
{
    let (f, begun) = bac6_front::read_front(text, Ok(0), rows)?;
    let (b, boned) = read_bones(text, Ok(begun), f.points, rows, f.end, owners)?;
    let (u, mapped) = bac6_section::section(
        text,
        Ok(boned),
        b"TextureCoords",
        b"f2",
        Form::Float,
        2,
        rows,
        b.end,
    )?;
    let (q, past) = read_end(text, Ok(mapped), rows, u.end, names)?;
    let shape = Parsed {
        place: f.place,
        length: f.length,
        counts: FigureCounts {
            textures: f.textures,
            colours: f.colours,
            materials: f.materials,
            points: f.points,
            normals: f.normals,
            bones: b.count,
            uvs: u.count,
            faces: q.faces,
            groups: q.groups,
        },
        fault: b.fault,
    };
    Ok((shape, past))
}
