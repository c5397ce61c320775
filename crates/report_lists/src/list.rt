// Lists of a table, a line a row.
ghost use Rattle.std.specs.Prelude.{◌≡◌};
ghost use Rattle.report_text.specs.Output.{output, appended};
ghost use Rattle.report_lists.specs.Lists.{row_list, listed, reached, first_line};
ghost use Rattle.report_lists.specs.Lists.{shown as shown_as};

use report_rows::append_row;
use report_text::has_room;

// How many bytes of a buffer are filled, and the index of the first number of a table that is not yet put.
#[derive(Clone, Copy)]
pub struct Progress {
    pub filled: usize,
    pub at: usize,
}

// A count as a number of a line; one that no i64 holds is -1.
pub fn shown(n: usize) -> i64
    ensures { result ≡ shown_as n }
{
    i64::try_from(n).unwrap_or(-1)
}

// Puts a line for each of count rows, and goes on in the table after them; rows that the table has not are left out.
pub fn append_list(
    buf: &mut [u8],
    p: Progress,
    word: &[u8],
    width: usize,
    count: usize,
    table: &[i64],
) -> Progress
    ensures { reached result buf.new table.now ≡ listed (reached p buf.old table.now) (row_list word.now width count) }
{
    let mut n = p.filled;
    let mut at = p.at.min(table.len());
    for row in 0..count {
        if !has_room(table.len(), at, width) {
            return Progress {
                filled: n,
                at: table.len(),
            };
        }
        let end = at + width;
        n = append_row(buf, n, word, &table[at..end]);
        at = end;
    }
    Progress { filled: n, at }
}

// Puts a listing's first line at the start of buf: a word and the total, or a refusal's number and place.
pub fn first_line(buf: &mut [u8], word: &[u8], refusal: usize, place: usize, total: usize) -> usize
    ensures { output result buf.new ≡ appended (output 0 buf.old) (first_line word.now refusal place total) }
{
    if refusal != 0 {
        return append_row(buf, 0, b"refused", &[shown(refusal), shown(place)]);
    }
    append_row(buf, 0, word, &[shown(total)])
}
