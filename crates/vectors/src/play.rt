// Questions on tables: Sample, Corner, Shown and the reason for it. Each answer is put at the start of out, and its length told.
use crate::counts::{figure_counts, lent_size, movement_counts};
use crate::kept::Kept;
use crate::kind::{Kind, kind_of};
use crate::record::next_number;
use crate::texts::tell_refused;
use player_channel::Sample;
use report_lists::shown;
use report_rows::append_row;
use report_text::{append, append_number};

// The first numbers of a table, or none where it is shorter.
pub(crate) fn front(table: &[i64], size: usize) -> &[i64] {
    table.get(..size).unwrap_or(&[])
}

// Numerator, bar and denominator, as document 01 writes a sample.
fn put_fraction(out: &mut [u8; 4096], answer: Option<Sample>) -> usize {
    let Some(sample) = answer else {
        return tell_refused(out, 21, 0);
    };
    let top = append_number(out, 0, sample.numerator);
    let bar = append(out, top, b"/");
    let bottom = append_number(out, bar, shown(sample.denominator as usize));
    append(out, bottom, b"\n")
}

// A question of no known kind has no answer.
fn answer(
    kind: Kind,
    input: &[u8],
    k: Kept,
    figure: &[i64; 11779],
    moves: &[i64; 11779],
    [a, b, c]: [usize; 3],
    out: &mut [u8; 4096],
) -> usize {
    let n = figure_counts(input, k.figure);
    let table = front(figure, lent_size(input, k.figure));
    let m = movement_counts(input, k.movement);
    let keys = front(moves, lent_size(input, k.movement));
    match kind {
        Kind::Sample => put_fraction(out, player_samples::sample(keys, m, a, b, c)),
        Kind::Corner => match player_corners::corner(table, n, a, b) {
            None => tell_refused(out, 21, 0),
            found => corner_listing::append_corner(out, 0, a, b, found),
        },
        Kind::Shown => match player_shown::shown(table, n, keys, m, a, b) {
            None => tell_refused(out, 21, 0),
            Some(is_shown) => append_row(out, 0, b"shown", &[shown(a), shown(b), is_shown as i64]),
        },
        Kind::Why => {
            let reason = player_why::why(table, n, keys, m, a, b);
            why_listing::append_why(out, 0, a, b, reason)
        }
        _ => append(out, 0, b"no such kind\n"),
    }
}

// A table with another number in it, where a question gives its name, an index and that number from an offset on.
fn altered(table: &[i64; 11779], name: Kind, args: &[u8], at: usize) -> [i64; 11779] {
    let word = text_tokens::next(args, at);
    let index = next_number(args, word.end);
    let number = next_number(args, index.at);
    let mut t = *table;
    if kind_of(args, word) == name && index.size < 11779 {
        t[index.size] = number.value;
    }
    t
}

// The numbers asked, and then perhaps another number for a table.
pub(crate) fn ask(
    kind: Kind,
    input: &[u8],
    args: &[u8],
    k: Kept,
    figure: &[i64; 11779],
    moves: &[i64; 11779],
    out: &mut [u8; 4096],
) -> usize {
    let a = next_number(args, 0);
    let b = next_number(args, a.at);
    let c = next_number(args, b.at);
    let f = altered(figure, Kind::Figure, args, c.at);
    let m = altered(moves, Kind::Movement, args, c.at);
    answer(kind, input, k, &f, &m, [a.size, b.size, c.size], out)
}
