// INT and FLOAT of the next token, alone and in rows.
ghost use Rattle.std.specs.Prelude.{◌≡◌};
ghost use Rattle.text_tokens.specs.Internal.Answers.{lexeme_of};
ghost use Rattle.text_numbers.specs.Internal.Answers.{number_named};
ghost use Rattle.text_numerals.specs.Numbers.{number_of};
ghost use Rattle.parse_spec.specs.Readers.{number as number_read};
ghost use Rattle.parse_cursor.specs.Internal.Cursors.{parsed, from};
ghost use Rattle.parse_numbers.specs.Internal.Answers.{form_named};
ghost use Rattle.parse_spec.specs.Internal.Tokens.{token_number};

use parse_cursor::{Cursor, Parsed};
use refusal::Refusal;
use text_numbers::NumberError;
use text_tokens::{Kind, Span};

#[derive(Clone, Copy, PartialEq, Eq)]
pub enum Form {
    Int,
    Float,
}

// A word as a number of a form.
#[tactic(auto, unfolding(crate::specs::Internal::Answers::form_named))]
fn word_number(word: &[u8], form: Form) -> Result<i64, NumberError>
    ensures { number_named result ≡ number_of (form_named form) word.now }
{
    match form {
        Form::Int => text_numbers::int(word),
        Form::Float => text_numbers::float(word),
    }
}

// A token as a number of a form: none but a plain word is one.
fn token_number(text: &[u8], t: Span, form: Form) -> Result<i64, NumberError>
    ensures { number_named result ≡ token_number (form_named form) (lexeme_of text.now t).token }
{
    match t.kind {
        Kind::Plain => word_number(text_parts::part(text, t.start, t.end), form),
        Kind::Opening | Kind::Closing | Kind::Quoted | Kind::Ending => Err(NumberError::Malformed),
    }
}

// A number.
pub fn number(text: &[u8], c: Cursor, form: Form) -> Parsed<i64>
    ensures { parsed text.now result (λ z. z) ≡ from text.now c (number_read (form_named form)) }
{
    let t = text_tokens::next(text, c?);
    match token_number(text, t, form) {
        Ok(value) => Ok((value, t.end)),
        Err(NumberError::Beyond) => Err(Refusal {
            number: 6,
            place: t.start,
        }),
        Err(NumberError::Malformed) => Err(Refusal {
            number: 5,
            place: t.start,
        }),
    }
}
