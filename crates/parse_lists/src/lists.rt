// Lists of rows, written to a lent table. After a refusal the table's numbers from the index on are free; those before it stay.
ghost use Rattle.std.specs.Prelude.{◌≡◌, take};
ghost use Rattle.parse_cursor.specs.Internal.Cursors.{parsed, from};
ghost use Rattle.parse_numbers.specs.Internal.Answers.{form_named};
ghost use Rattle.parse_lists.specs.Internal.ListsInto.{rows_into, some_into};

use parse_cursor::{Cursor, Parsed};
use parse_numbers::{Form, next_item};
use parse_rows::{row, row_tail};
use table_index::advance;

// How many rows stand up to ), one after the other to the table from index `at` on; those past its end are dropped.
// After a refusal the table's numbers from that index on are free; those before it always stay.
pub fn rows(
    text: &[u8],
    c: Cursor,
    word: &[u8],
    lead: usize,
    form: Form,
    width: usize,
    out: &mut [i64],
    at: usize,
) -> Parsed<usize>
    ensures meaning { parsed text.now result (λ n. (n, out.new)) ≡ from text.now c (rows_into word.now lead (form_named form) width at out.old) }
    ensures before { take at out.new ≡ take at out.old }
{
    let mut d = c?;
    let mut i = at;
    let mut count = 0;
    loop {
        let (ended, start) = next_item(text, Ok(d))?;
        if ended {
            return Ok((count, start));
        }
        d = row_tail(text, Ok(start), word, lead, form, width, out, i)?;
        count += 1;
        let n = out.len();
        i = advance(advance(i, lead, n), width, n);
    }
}

// One row or more, likewise.
pub fn some_rows(
    text: &[u8],
    c: Cursor,
    word: &[u8],
    lead: usize,
    form: Form,
    width: usize,
    out: &mut [i64],
    at: usize,
) -> Parsed<usize>
    ensures meaning { parsed text.now result (λ n. (n, out.new)) ≡ from text.now c (some_into word.now lead (form_named form) width at out.old) }
    ensures before { take at out.new ≡ take at out.old }
{
    let first = row(text, c, word, lead, form, width, out, at);
    let n = out.len();
    let i = advance(advance(at, lead, n), width, n);
    let (more, d) = rows(text, first, word, lead, form, width, out, i)?;
    Ok((more + 1, d))
}
