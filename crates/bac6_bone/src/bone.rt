// A bone: seven chunks in any order, each at most once.
ghost use Rattle.std.specs.Prelude.{◌≡◌, ◌<◌, ◌≤◌, pos, replicate, Ok};
ghost use Rattle.parse_spec.specs.Fields.{fields};
ghost use Rattle.parse_spec.specs.Internal.Fields.{inside_at};
ghost use Rattle.parse_cursor.specs.Internal.Cursors.{reads, from, parsed};
ghost use Rattle.bac6_text.specs.Grammar.{bone_kinds};
ghost use Rattle.bac6_bone.specs.Internal.Into.{kept, put_row, put_field, bone_state, bone_into};

use parse_cursor::{Cursor, Parsed};
use parse_numbers::Form;

// The name's place and length, to the row.
fn bone_name(text: &[u8], start: usize, row: &mut [i64; 14]) -> Cursor
    ensures { reads text.now result row.new ≡ from text.now (Ok start) (kept (inside_at bone_kinds 0) (put_row 0 row.old)) }
{
    let (name, at) = parse_names::name(text, Ok(start))?;
    row[12] = name.place as i64;
    row[13] = name.length as i64;
    Ok(at)
}

// A flag, to the row.
fn bone_flag(text: &[u8], start: usize, k: usize, row: &mut [i64; 14]) -> Cursor
    requires { (0 < k) × (k < 3) }
    ensures { reads text.now result row.new ≡ from text.now (Ok start) (kept (inside_at bone_kinds k) (put_row k row.old)) }
{
    let (value, at) = parse_words::one_of(text, Ok(start), b"false true", 2)?;
    row[8 + k] = value;
    parse_cursor::closing(text, Ok(at))
}

// Three numbers, to the row.
fn bone_vector(text: &[u8], start: usize, k: usize, row: &mut [i64; 14]) -> Cursor
    requires { (3 ≤ k) × (k < 6) }
    ensures { reads text.now result row.new ≡ from text.now (Ok start) (kept (inside_at bone_kinds k) (put_row k row.old)) }
{
    let to = (k - 3) * 3;
    let d = parse_rows::numbers(text, Ok(start), Form::Float, 3, row, to);
    parse_cursor::closing(text, d)
}

// What stands in the chunk of kind k: to the row or, for the entries, to the claims.
fn bone_value(
    text: &[u8],
    start: usize,
    k: usize,
    points: usize,
    bone: i64,
    row: &mut [i64; 14],
    owners: &mut [i64],
    fine: bool,
) -> Parsed<bool>
    requires { k < 7 }
    ensures { parsed text.now result (λ f. (row.new, (f, owners.new))) ≡ from text.now (Ok start) (kept (inside_at bone_kinds k) (put_field points bone k (row.old, (fine, owners.old)))) }
{
    match k {
        0 => Ok((fine, bone_name(text, start, row)?)),
        1 | 2 => Ok((fine, bone_flag(text, start, k, row)?)),
        3..=5 => Ok((fine, bone_vector(text, start, k, row)?)),
        _ => bac6_entries::entries(text, start, points, bone, owners, fine),
    }
}

// The chunks of a bone up to its closing bracket, from an empty row: all but `name` and `vertexIndices` must have stood.
fn bone_fields(
    text: &[u8],
    c: Cursor,
    points: usize,
    bone: i64,
    row: &mut [i64; 14],
    owners: &mut [i64],
    fine: bool,
) -> Parsed<bool>
    requires { row.old ≡ replicate 14 (pos 0) }
    ensures { parsed text.now result (λ f. (row.new, (f, owners.new))) ≡ from text.now c (kept (fields bone_kinds) (bone_state points bone (fine, owners.old))) }
{
    let mut seen = [false; 7];
    let mut at = c?;
    let mut left: usize = 7;
    let mut free = fine;
    loop {
        let (chunk, inside) = parse_chunks::next_chunk(
            text,
            Ok(at),
            b"name hasChild hasBrother translate rotate handle vertexIndices",
            &[false, true, true, true, true, true, false],
            &mut seen,
            left,
        )?;
        let Some(k) = chunk else {
            return Ok((free, inside));
        };
        let (still, past) = bone_value(text, inside, k, points, bone, row, owners, free)?;
        free = still;
        at = past;
        left -= 1;
    }
}

// What stands in a bone after its opening bracket: its row to the table from index `to` on, and its claims.
pub fn bone_tail(
    text: &[u8],
    c: Cursor,
    points: usize,
    bone: i64,
    out: &mut [i64],
    to: usize,
    owners: &mut [i64],
    fine: bool,
) -> Parsed<bool>
    ensures { parsed text.now result (λ f. (out.new, (f, owners.new))) ≡ from text.now c (bone_into points bone to out.old (fine, owners.old)) }
{
    let d = parse_cursor::keyword(text, c, b"bone");
    let mut row = [0i64; 14];
    let read = bone_fields(text, d, points, bone, &mut row, owners, fine)?;
    table_rows::store(out, to, &row);
    Ok(read)
}
