// Lists of rows, each after the one before it in one table.
ghost use Rattle.std.specs.Prelude.{◌≡◌, ◌≤◌, length, IfOk};
ghost use Rattle.parse_numbers.specs.Internal.Answers.{form_named};
ghost use Rattle.parse_cursor.specs.Internal.Cursors.{from, parsed};
ghost use Rattle.bac6_section.specs.Internal.Answers.{listed_at};
ghost use Rattle.bac6_section.specs.Internal.Lists.{list_into, section_of};

use parse_cursor::{Cursor, Parsed};
use parse_numbers::Form;

// How many rows were read, and the index after them in the table, or its end.
#[derive(Clone, Copy, PartialEq, Eq)]
pub struct Listed {
    pub count: usize,
    pub end: usize,
}

// A list of so many rows that was laid from index `at` on, in rows of `width` numbers, in a table of n numbers.
pub fn with_end(rows: Parsed<usize>, at: usize, width: usize, n: usize) -> Parsed<Listed>
    ensures { result ≡ listed_at rows at width n }
{
    let (count, past) = rows?;
    let list = Listed {
        count,
        end: table_index::rows_end(at, count, width, n),
    };
    Ok((list, past))
}

// A chunk of rows that may be left out, its rows to the table from index `at` on; numbers past its end are dropped.
// Where it is refused, what the table holds is free.
pub fn section(
    text: &[u8],
    c: Cursor,
    name: &[u8],
    word: &[u8],
    form: Form,
    width: usize,
    out: &mut [i64],
    at: usize,
) -> Parsed<Listed>
    ensures content { parsed text.now result (λ l. (l.count, (l.end, out.new))) ≡ from text.now c (list_into width (section_of name.now word.now (form_named form) width) (at, out.old)) }
    ensures within { IfOk result (λ p. p.0.end ≤ length out.new) }
{
    let (present, inside) = parse_optional::optional(text, c, name)?;
    if present {
        let rows = parse_lists::rows(text, Ok(inside), word, 0, form, width, out, at);
        return with_end(rows, at, width, out.len());
    }
    with_end(Ok((0, inside)), at, width, out.len())
}
