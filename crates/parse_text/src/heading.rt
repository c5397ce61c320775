// What stands first in a text and last.
ghost use Rattle.std.specs.Prelude.{◌≡◌};
ghost use Rattle.parse_spec.specs.Readers.{head_of, text_end};
ghost use Rattle.parse_spec.specs.Readers.{version as version_of};
ghost use Rattle.parse_cursor.specs.Internal.Cursors.{reads, from};

use parse_cursor::{Cursor, closing, opened};
use refusal::Refusal;
use text_kinds::{is_ending, is_plain};

// A version: another plain word is refusal 7.
fn version(text: &[u8], c: Cursor, wanted: &[u8]) -> Cursor
    ensures { reads text.now result tt ≡ from text.now c (version_of wanted.now) }
{
    let t = text_tokens::next(text, c?);
    if text_tokens::is_keyword(text, t, wanted) {
        return Ok(t.end);
    }
    if is_plain(t.kind) {
        return Err(Refusal {
            number: 7,
            place: t.start,
        });
    }
    Err(Refusal {
        number: 5,
        place: t.start,
    })
}

// ( Head ( a keyword and a version ) )
pub fn head(text: &[u8], c: Cursor, word: &[u8], wanted: &[u8]) -> Cursor
    ensures { reads text.now result tt ≡ from text.now c (head_of word.now wanted.now) }
{
    let inside = opened(text, opened(text, c, b"Head"), word);
    closing(text, closing(text, version(text, inside, wanted)))
}

// Nothing is left.
pub fn text_end(text: &[u8], c: Cursor) -> Cursor
    ensures { reads text.now result tt ≡ from text.now c text_end }
{
    let at = c?;
    let left = text_tokens::next(text, at);
    if is_ending(left.kind) {
        return Ok(at);
    }
    Err(Refusal {
        number: 5,
        place: left.start,
    })
}
