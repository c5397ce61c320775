// Names: where their bytes begin and how many they are.
ghost use Rattle.std.specs.Prelude.{◌≡◌};
ghost use Rattle.parse_cursor.specs.Internal.Cursors.{parsed, from};
ghost use Rattle.parse_spec.specs.Internal.Places.{string_of, name_of, optional_name};

use parse_cursor::{Cursor, Parsed, closing};
use parse_optional::optional;
use refusal::Refusal;
use text_kinds::is_quoted;

// The offset of a name's first byte, and its length.
#[derive(Clone, Copy, PartialEq, Eq)]
pub struct Place {
    pub place: usize,
    pub length: usize,
}

// A string.
fn string(text: &[u8], c: Cursor) -> Parsed<Place>
    ensures { parsed text.now result (λ z. (z.place, z.length)) ≡ from text.now c string_of }
{
    let t = text_tokens::next(text, c?);
    if is_quoted(t.kind) {
        let found = Place {
            place: t.start + 1,
            length: t.length,
        };
        return Ok((found, t.end));
    }
    Err(Refusal {
        number: 5,
        place: t.start,
    })
}

// A name and its chunk's ).
pub fn name(text: &[u8], c: Cursor) -> Parsed<Place>
    ensures { parsed text.now result (λ z. (z.place, z.length)) ≡ from text.now c name_of }
{
    let (found, at) = string(text, c)?;
    Ok((found, closing(text, Ok(at))?))
}

// A chunk of a name that may be left out; an absent one is 0 and 0.
pub fn optional_name(text: &[u8], c: Cursor) -> Parsed<Place>
    ensures { parsed text.now result (λ z. (z.place, z.length)) ≡ from text.now c optional_name }
{
    let (present, at) = optional(text, c, b"name")?;
    if present {
        return name(text, Ok(at));
    }
    let absent = Place {
        place: 0,
        length: 0,
    };
    Ok((absent, at))
}
