// A material: nine chunks in any order, each at most once.
ghost use Rattle.std.specs.Prelude.{◌≡◌, ◌<◌, pos, replicate, Ok};
ghost use Rattle.parse_spec.specs.Internal.Fields.{inside_at};
ghost use Rattle.parse_cursor.specs.Internal.Cursors.{reads, from, parsed};
ghost use Rattle.bac6_text.specs.Grammar.{material_kinds, material};
ghost use Rattle.bac6_materials.specs.Internal.Closing.{then_closed};
ghost use Rattle.bac6_materials.specs.Internal.Into.{material_row, material_into, materials_into};
ghost use Rattle.parse_rows.specs.Internal.Folds.{folded, row_step};

use parse_cursor::{Cursor, Parsed};
use parse_numbers::Form;
use table_counts::MATERIAL_WIDTH;

// The value in the chunk of column k, and the closing bracket.
fn material_value(text: &[u8], c: Cursor, k: usize) -> Parsed<i64>
    requires { k < 9 }
    ensures { parsed text.now result (λ v. v) ≡ from text.now c (inside_at material_kinds k) }
{
    match k {
        0 => close(
            text,
            parse_words::one_of(text, c, b"normal add sub half", 4),
        ),
        1..=3 => close(text, parse_words::one_of(text, c, b"false true", 2)),
        4 | 5 => close(text, parse_numbers::number(text, c, Form::Int)),
        _ => close(text, parse_numbers::number(text, c, Form::Float)),
    }
}

// A value, and the closing bracket after it.
fn close(text: &[u8], read: Parsed<i64>) -> Parsed<i64>
    ensures { parsed text.now result (λ v. v) ≡ then_closed (parsed text.now read (λ v. v)) }
{
    let (value, at) = read?;
    Ok((value, parse_cursor::closing(text, Ok(at))?))
}

// The chunks of a material up to its closing bracket, from an empty row: all but `alpha` and `shininess` must have stood.
fn material_fields(text: &[u8], c: Cursor, row: &mut [i64]) -> Cursor
    requires { row.old ≡ replicate 9 (pos 0) }
    ensures { reads text.now result row.new ≡ from text.now c material_row }
{
    let mut seen = [false; 9];
    let mut at = c?;
    let mut left: usize = 9;
    loop {
        let (chunk, inside) = parse_chunks::next_chunk(
            text,
            Ok(at),
            b"blendMode doubleFace transparent lighting textureIndex colorIndex specular alpha shininess",
            &[true, true, true, true, true, true, true, false, false],
            &mut seen,
            left,
        )?;
        let Some(k) = chunk else {
            return Ok(inside);
        };
        let (value, past) = material_value(text, Ok(inside), k)?;
        row[k] = value;
        at = past;
        left -= 1;
    }
}

// What stands in a material after its opening bracket, its nine numbers to the table from index `to` on.
fn material_tail(text: &[u8], c: Cursor, out: &mut [i64], to: usize) -> Cursor
    ensures { reads text.now result out.new ≡ from text.now c (material_into to out.old) }
{
    let mut row = [0i64; 9];
    let d = parse_cursor::keyword(text, c, b"material");
    let at = material_fields(text, d, &mut row)?;
    table_rows::store(out, to, &row);
    Ok(at)
}

// One material or more, up to the closing bracket after them, to the table; numbers past its end are dropped.
// Where it is refused, what the table holds is free.
pub fn materials(text: &[u8], c: Cursor, out: &mut [i64]) -> Parsed<usize>
    ensures { parsed text.now result (λ n. (n, out.new)) ≡ from text.now c (materials_into out.old) }
{
    let first = material_tail(text, parse_cursor::opening(text, c), out, 0)?;
    more_materials(text, first, out)
}

// The materials after the first.
fn more_materials(text: &[u8], start: usize, out: &mut [i64]) -> Parsed<usize>
    ensures { parsed text.now result (λ n. (n, out.new)) ≡ from text.now (Ok start) (folded (row_step 9) material (1, out.old)) }
{
    let mut at = start;
    let mut i = MATERIAL_WIDTH;
    let mut count = 1;
    loop {
        let (ended, next) = parse_numbers::next_item(text, Ok(at))?;
        if ended {
            return Ok((count, next));
        }
        at = material_tail(text, Ok(next), out, i)?;
        count += 1;
        i = table_index::advance(i, MATERIAL_WIDTH, out.len());
    }
}
