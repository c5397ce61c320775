// The pattern lines of a movement.
ghost use Rattle.std.specs.Prelude.{◌≡◌};
ghost use Rattle.parse_cursor.specs.Internal.Cursors.{reads, from, parsed};
ghost use Rattle.parse_rows.specs.Internal.Folds.{folded, row_step};
ghost use Rattle.tra4_text.specs.Grammar.{pattern as pattern_read};
ghost use Rattle.tra4_patterns.specs.Internal.Patterns.{pattern_into, patterns_into};

use parse_cursor::{Cursor, Parsed};
use parse_numbers::Form;

// What stands in a pattern line after its opening bracket: frame, group and flag, to the table from index `at` on.
fn pattern_tail(text: &[u8], c: Cursor, out: &mut [i64], at: usize) -> Cursor
    ensures { reads text.now result out.new ≡ from text.now c (pattern_into at out.old) }
{
    let k = parse_cursor::keyword(text, c, b"kgf");
    let d = parse_rows::numbers(text, k, Form::Int, 2, out, at);
    let (flag, e) = parse_words::one_of(text, d, b"false true", 2)?;
    table_rows::store(out, table_index::advance(at, 2, out.len()), &[flag]);
    parse_cursor::closing(text, Ok(e))
}

// Pattern lines up to the closing bracket: how many.
fn pattern_list(text: &[u8], c: Cursor, out: &mut [i64]) -> Parsed<usize>
    ensures { parsed text.now result (λ n. (n, out.new)) ≡ from text.now c (folded (row_step 3) pattern_read (0, out.old)) }
{
    let mut d = c?;
    let mut i = 0;
    let mut count = 0;
    loop {
        let (ended, start) = parse_numbers::next_item(text, Ok(d))?;
        if ended {
            return Ok((count, start));
        }
        d = pattern_tail(text, Ok(start), out, i)?;
        count += 1;
        i = table_index::advance(i, 3, out.len());
    }
}

// How many lines `DynamicPolygons` has, which may be left out, and the lines to the table; numbers past its end are dropped.
// After a refusal what the table holds is free.
pub fn patterns(text: &[u8], c: Cursor, out: &mut [i64]) -> Parsed<usize>
    ensures { parsed text.now result (λ n. (n, out.new)) ≡ from text.now c (patterns_into out.old) }
{
    let (stands, d) = parse_optional::trailing(text, c, b"DynamicPolygons")?;
    if !stands {
        return Ok((0, d));
    }
    pattern_list(text, Ok(d), out)
}
