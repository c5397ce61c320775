// Where an item of a list begins, or the list ends.
ghost use Rattle.std.specs.Prelude.{◌≡◌};
ghost use Rattle.parse_cursor.specs.Internal.Cursors.{parsed, from};
ghost use Rattle.parse_spec.specs.Internal.Branches.{item_of};

use parse_cursor::{Cursor, Parsed};
use refusal::Refusal;
use text_kinds::{is_closing, is_opening};

// In a list: whether it has ended, past the ) that ends it or past the ( of its next item.
pub fn next_item(text: &[u8], c: Cursor) -> Parsed<bool>
    ensures { parsed text.now result (λ z. z) ≡ from text.now c item_of }
{
    let t = text_tokens::next(text, c?);
    if is_closing(t.kind) {
        return Ok((true, t.end));
    }
    if is_opening(t.kind) {
        return Ok((false, t.end));
    }
    Err(Refusal {
        number: 5,
        place: t.start,
    })
}
