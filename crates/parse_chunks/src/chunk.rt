// Chunks in a free order: the head of the next one, or the closing bracket after the last.
ghost use Rattle.std.specs.Prelude.{◌≡◌, length, set, Some};
ghost use Rattle.text_tokens.specs.Tokens.{lex_at};
ghost use Rattle.parse_cursor.specs.Internal.Cursors.{parsed, from};
ghost use Rattle.parse_spec.specs.Internal.Fields.{covers_all};
ghost use Rattle.parse_chunks.specs.Internal.Heads.{key_in, head_in, marked};
ghost use Rattle.parse_words.specs.Internal.Words.{words};

use parse_cursor::{Cursor, Parsed};
use parse_words::word_index;
use refusal::Refusal;

// Whether every flag that is needed is set.
fn covers(needed: &[bool], seen: &[bool]) -> bool
    ensures { result ≡ covers_all needed.now seen.now }
{
    for (need, set) in needed.iter().zip(seen) {
        if *need && !*set {
            return false;
        }
    }
    true
}

// The row of the keyword of a chunk, as `next_chunk` answers it, and its flag is set; refused at another token and at a keyword whose flag has been set.
fn next_keyword(text: &[u8], at: usize, list: &[u8], seen: &mut [bool]) -> Parsed<Option<usize>>
    ensures kind_value { parsed text.now result (λ k. k) ≡ key_in (words list.now) seen.old (lex_at text.now at) }
    ensures seen_after { seen.new ≡ marked seen.old result }
{
    let t = text_tokens::next(text, at);
    // (first, so that the list is not walked for another token)
    if text_kinds::is_plain(t.kind) {
        let k = word_index(text, t, list);
        if k < seen.len() && !seen[k] {
            seen[k] = true;
            return Ok((Some(k), t.end));
        }
    }
    Err(Refusal {
        number: 5,
        place: t.start,
    })
}

// The head of the next chunk, of which `left` may still open: the row of its keyword, whose flag is set. Or none, past the closing bracket
// after the last chunk, where every flag that is needed is set. Callers have a flag for each word of the list: with fewer, the words past
// them are refused.
pub fn next_chunk(
    text: &[u8],
    c: Cursor,
    list: &[u8],
    needed: &[bool],
    seen: &mut [bool],
    left: usize,
) -> Parsed<Option<usize>>
    ensures kind_value { parsed text.now result (λ k. k) ≡ from text.now c (head_in (words list.now) needed.now seen.old left) }
    ensures seen_after { seen.new ≡ marked seen.old result }
{
    let t = text_tokens::next(text, c?);
    let refused = Err(Refusal {
        number: 5,
        place: t.start,
    });
    if text_kinds::is_closing(t.kind) {
        if covers(needed, seen) {
            return Ok((None, t.end));
        }
        return refused;
    }
    if left == 0 || !text_kinds::is_opening(t.kind) {
        return refused;
    }
    next_keyword(text, t.end, list, seen)
}
