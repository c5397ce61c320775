// Questions on texts: tokens, numbers, figures and movements. Each answer is put at the start of out, and its length told.
use crate::counts::lent_size;
use refusal::Refusal;
use report_lists::shown;
use report_rows::append_row;
use text_numbers::NumberError;
use text_tokens::Kind;

pub(crate) fn tell_refused(out: &mut [u8; 4096], number: u8, place: usize) -> usize {
    append_row(out, 0, b"refused", &[number as i64, shown(place)])
}

pub(crate) fn tell_checked(answer: Result<(), Refusal>, out: &mut [u8; 4096]) -> usize {
    match answer {
        Ok(()) => append_row(out, 0, b"clear", &[]),
        Err(r) => tell_refused(out, r.number, r.place),
    }
}

// A number, or its refusal, which has no place.
pub(crate) fn tell_number(answer: Result<i64, NumberError>, out: &mut [u8; 4096]) -> usize {
    match answer {
        Ok(z) => append_row(out, 0, b"value", &[z]),
        Err(NumberError::Beyond) => append_row(out, 0, b"refused", &[6]),
        Err(NumberError::Malformed) => append_row(out, 0, b"refused", &[5]),
    }
}

fn kind_word(kind: Kind) -> &'static [u8] {
    match kind {
        Kind::Opening => b"opening",
        Kind::Closing => b"closing",
        Kind::Quoted => b"quoted",
        Kind::Plain => b"plain",
        Kind::Ending => b"ending",
    }
}

// The tokens of a text, a line each: the kind, the offset, where it ends, how many bytes it holds.
pub(crate) fn tell_tokens(text: &[u8], out: &mut [u8; 4096]) -> usize {
    let mut filled = 0;
    let mut at = 0;
    for _ in 0..=text.len() {
        let t = text_tokens::next(text, at);
        let numbers = [shown(t.start), shown(t.end), shown(t.length)];
        filled = append_row(out, filled, kind_word(t.kind), &numbers);
        if text.len() <= t.start {
            return filled;
        }
        at = t.end;
    }
    filled
}

// The listing of a figure, read into the first numbers of a table of zeros.
pub(crate) fn tell_figure(
    text: &[u8],
    input: &[u8],
    counts: usize,
    table: &mut [i64; 11779],
    out: &mut [u8; 4096],
) -> usize {
    let size = lent_size(input, counts);
    *table = [0; 11779];
    let answer = bac6::read(text, &mut table[..size]);
    bac6_listing::list_figure(answer, table, out)
}

// Likewise of a movement.
pub(crate) fn tell_movement(
    text: &[u8],
    input: &[u8],
    counts: usize,
    table: &mut [i64; 11779],
    out: &mut [u8; 4096],
) -> usize {
    let size = lent_size(input, counts);
    *table = [0; 11779];
    let answer = tra4::read(text, &mut table[..size]);
    tra4_listing::list_movement(answer, table, out)
}
