// A cursor goes from reader to reader. Once one refuses, the others pass the refusal on, so that a sequence has no branches.
ghost use Rattle.std.specs.Prelude.{◌≡◌};
ghost use Rattle.parse_spec.specs.Readers.{open_bracket, close_bracket, word_of, opened_of};
ghost use Rattle.parse_cursor.specs.Internal.Cursors.{reads, from};

use refusal::Refusal;
use text_kinds::{is_closing, is_opening};

// Where to read on, or the refusal. Where to read on is settled up to blanks and comments before the next token.
pub type Cursor = Result<usize, Refusal>;

// A value and where to read on, or the refusal.
pub type Parsed<T> = Result<(T, usize), Refusal>;

// (
pub fn opening(text: &[u8], c: Cursor) -> Cursor
    ensures { reads text.now result tt ≡ from text.now c open_bracket }
{
    let t = text_tokens::next(text, c?);
    if is_opening(t.kind) {
        return Ok(t.end);
    }
    Err(Refusal {
        number: 5,
        place: t.start,
    })
}

// )
pub fn closing(text: &[u8], c: Cursor) -> Cursor
    ensures { reads text.now result tt ≡ from text.now c close_bracket }
{
    let span = text_tokens::next(text, c?);
    if is_closing(span.kind) {
        return Ok(span.end);
    }
    Err(Refusal {
        number: 5,
        place: span.start,
    })
}

// A keyword.
pub fn keyword(text: &[u8], c: Cursor, word: &[u8]) -> Cursor
    ensures { reads text.now result tt ≡ from text.now c (word_of word.now) }
{
    let word_span = text_tokens::next(text, c?);
    if text_tokens::is_keyword(text, word_span, word) {
        return Ok(word_span.end);
    }
    Err(Refusal {
        number: 5,
        place: word_span.start,
    })
}

// ( and a keyword.
pub fn opened(text: &[u8], c: Cursor, word: &[u8]) -> Cursor
    ensures { reads text.now result tt ≡ from text.now c (opened_of word.now) }
{
    keyword(text, opening(text, c), word)
}
