// Which of some keywords a token is.
ghost use Rattle.std.specs.Prelude.{◌≡◌};
ghost use Rattle.text_tokens.specs.Internal.Answers.{lexeme_of};
ghost use Rattle.parse_words.specs.Internal.Words.{words, index_in, word_in};
ghost use Rattle.parse_cursor.specs.Internal.Cursors.{parsed, from};

use parse_cursor::{Cursor, Parsed};
use refusal::Refusal;
use text_kinds::is_plain;
use text_runs::Run;
use text_tokens::Span;

// The row of the first word of a list that a token is, or how many words there are. Single spaces part the words.
pub fn word_index(text: &[u8], t: Span, list: &[u8]) -> usize
    ensures { result ≡ index_in (lexeme_of text.now t).token (words list.now) }
{
    let mut row = 0;
    let mut start = 0;
    loop {
        let end = text_runs::run_end(list, start, Run::Word);
        if text_tokens::is_keyword(text, t, text_parts::part(list, start, end)) {
            return row;
        }
        row += 1;
        if list.len() <= end {
            return row;
        }
        start = end + 1;
    }
}

// One of the first `count` words of a list, by its row.
pub fn one_of(text: &[u8], c: Cursor, list: &[u8], count: u8) -> Parsed<i64>
    ensures { parsed text.now result (λ z. z) ≡ from text.now c (word_in list.now count) }
{
    let t = text_tokens::next(text, c?);
    // (first, so that the list is not walked for another token)
    if is_plain(t.kind) {
        let row = word_index(text, t, list);
        if row < count as usize {
            return Ok((row as i64, t.end));
        }
    }
    Err(Refusal {
        number: 5,
        place: t.start,
    })
}
