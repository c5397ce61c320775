// The shape of a movement's text.
ghost use Rattle.std.specs.Prelude.{◌≡◌};
ghost use Rattle.text_tokens.specs.Tokens.{lex};
ghost use Rattle.parse_cursor.specs.Internal.Cursors.{parsed};
ghost use Rattle.tra4_bone.specs.Internal.Into.{kept};
ghost use Rattle.tra4_parse.specs.Internal.Parse.{movement_value, movement_into};

use parse_cursor::{Parsed, closing, opened};
use parse_numbers::Form;
use tra4_patterns::patterns;

// The total of frames, the name's place and length, and how many rows each list has: none of keys where there are more than 4,096.
#[derive(Clone, Copy)]
pub struct Shape {
    pub total: i64,
    pub place: usize,
    pub length: usize,
    pub bones: usize,
    pub keys: Option<usize>,
    pub patterns: usize,
}

// Reads a whole text, its lists to tables: each list's rows over its table's first numbers, those past its end counted and dropped;
// the keys by bone and channel number. What the tables hold after a refusal is free, and so are bones and keys where there are too many keys.
pub fn parse(
    text: &[u8],
    bone_rows: &mut [i64],
    key_rows: &mut [i64],
    pattern_rows: &mut [i64],
) -> Parsed<Shape>
    ensures { parsed text.now result (λ p. movement_value p.total (p.place, p.length) (p.bones, kept p.keys bone_rows.new key_rows.new) (p.patterns, pattern_rows.new)) ≡ movement_into bone_rows.old key_rows.old pattern_rows.old (lex text.now) }
{
    let begun = opened(
        text,
        parse_text::head(text, Ok(0), b"traVersion", b"4.0"),
        b"Figure",
    );
    let (name, named) = parse_names::optional_name(text, begun)?;
    let frames = opened(text, Ok(named), b"totalFrame");
    let (total, framed) = parse_numbers::number(text, frames, Form::Int)?;
    let begin = closing(text, Ok(framed));
    let (b, boned) = tra4_bones::bones(text, begin, bone_rows, key_rows)?;
    let (lines, d) = patterns(text, Ok(boned), pattern_rows)?;
    let end = parse_text::text_end(text, closing(text, Ok(d)))?;
    let shape = Shape {
        total,
        place: name.place,
        length: name.length,
        bones: b.count,
        keys: b.keys,
        patterns: lines,
    };
    Ok((shape, end))
}
