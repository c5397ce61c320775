// Numbers and a row, written to a lent table. After a refusal the table's numbers from the index on are free; those before it stay.
ghost use Rattle.std.specs.Prelude.{◌≡◌, take};
ghost use Rattle.parse_cursor.specs.Internal.Cursors.{reads, from};
ghost use Rattle.parse_numbers.specs.Internal.Answers.{form_named};
ghost use Rattle.parse_rows.specs.Internal.Into.{numbers_into, row_into, row_tail};

use parse_cursor::{Cursor, closing, keyword, opening};
use parse_numbers::{Form, number};
use table_index::advance;

// `width` numbers, to the table from index `at` on; those past its end are dropped.
// Where the cursor has refused, the table's numbers from that index on are free; those before it always stay.
pub fn numbers(
    text: &[u8],
    c: Cursor,
    form: Form,
    width: usize,
    out: &mut [i64],
    at: usize,
) -> Cursor
    ensures meaning { reads text.now result out.new ≡ from text.now c (numbers_into (form_named form) width at out.old) }
    ensures before { take at out.new ≡ take at out.old }
{
    let mut d = c?;
    let mut i = at;
    for _ in 0..width {
        let (value, next) = number(text, Ok(d), form)?;
        d = next;
        if i < out.len() {
            out[i] = value;
            i += 1;
        }
    }
    Ok(d)
}

// What stands in a row after its (: a keyword, `lead` INT numbers, `width` of a form, and ), the numbers to the table from index `at` on.
// Where the cursor has refused, the table's numbers from that index on are free; those before it always stay.
pub fn row_tail(
    text: &[u8],
    c: Cursor,
    word: &[u8],
    lead: usize,
    form: Form,
    width: usize,
    out: &mut [i64],
    at: usize,
) -> Cursor
    ensures meaning { reads text.now result out.new ≡ from text.now c (row_tail word.now lead (form_named form) width at out.old) }
    ensures before { take at out.new ≡ take at out.old }
{
    let d = numbers(text, keyword(text, c, word), Form::Int, lead, out, at);
    let i = advance(at, lead, out.len());
    closing(text, numbers(text, d, form, width, out, i))
}

// ( a keyword, `lead` INT numbers, `width` of a form, and ), the numbers to the table from index `at` on.
// Where the cursor has refused, the table's numbers from that index on are free; those before it always stay.
pub fn row(
    text: &[u8],
    c: Cursor,
    word: &[u8],
    lead: usize,
    form: Form,
    width: usize,
    out: &mut [i64],
    at: usize,
) -> Cursor
    ensures meaning { reads text.now result out.new ≡ from text.now c (row_into word.now lead (form_named form) width at out.old) }
    ensures before { take at out.new ≡ take at out.old }
{
    row_tail(text, opening(text, c), word, lead, form, width, out, at)
}
