// Chunks that may be left out: whether they stand, and where to read on, past their ( and keyword or where they would stand.
ghost use Rattle.std.specs.Prelude.{◌≡◌};
ghost use Rattle.parse_cursor.specs.Internal.Cursors.{parsed, from};
ghost use Rattle.parse_spec.specs.Internal.Branches.{start_of, last_of};

use parse_cursor::{Cursor, Parsed, keyword};
use text_kinds::is_opening;

// A chunk that may be left out, before one that may not: it stands where its ( and keyword do.
pub fn optional(text: &[u8], c: Cursor, word: &[u8]) -> Parsed<bool>
    ensures { parsed text.now result (λ z. z) ≡ from text.now c (start_of word.now) }
{
    let at = c?;
    let t = text_tokens::next(text, at);
    if !is_opening(t.kind) {
        return Ok((false, at));
    }
    let k = text_tokens::next(text, t.end);
    if !text_tokens::is_keyword(text, k, word) {
        return Ok((false, at));
    }
    Ok((true, k.end))
}

// A chunk that may be left out, as the last: it stands where a ( does, and its keyword must follow.
pub fn trailing(text: &[u8], c: Cursor, word: &[u8]) -> Parsed<bool>
    ensures { parsed text.now result (λ z. z) ≡ from text.now c (last_of word.now) }
{
    let at = c?;
    let t = text_tokens::next(text, at);
    if !is_opening(t.kind) {
        return Ok((false, at));
    }
    let inside = Ok(t.end);
    Ok((true, keyword(text, inside, word)?))
}
