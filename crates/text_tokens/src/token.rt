// The next token at or after an offset.
ghost use Rattle.std.specs.Prelude.{◌≡◌, ◌<◌, length, get_or};
ghost use Rattle.text_bytes.specs.Bytes.{class_of, quote, letter};
ghost use Rattle.text_tokens.specs.Tokens.{is_keyword};
ghost use Rattle.text_tokens.specs.Internal.Answers.{Next, lexeme_of};

use text_bytes::{Class, class_of};
use text_parts::{part, same};
use text_runs::{Run, run_end};

#[derive(Clone, Copy, PartialEq, Eq)]
pub enum Kind {
    Opening,
    Closing,
    Quoted,
    Plain,
    Ending,
}

// A token: its kind, the offset of its first byte, the offset after its last, and how many bytes a string or a plain word holds.
#[derive(Clone, Copy)]
pub struct Span {
    pub kind: Kind,
    pub start: usize,
    pub end: usize,
    pub length: usize,
}

// The first token at or after an offset, where a comment is passed over at once, so that the offset does not go up by one; past the last token, one of kind `Ending` at the text's length.
pub fn next(text: &[u8], at: usize) -> Span
    ensures { Next text.now at result }
{
    let mut i = at;
    while i < text.len() {
        match class_of(text[i]) {
            Class::Blank | Class::Other => i += 1,
            Class::Semicolon => i = run_end(text, i + 1, Run::Line),
            Class::Opener => {
                return Span {
                    kind: Kind::Opening,
                    start: i,
                    end: i + 1,
                    length: 0,
                };
            }
            Class::Closer => {
                return Span {
                    kind: Kind::Closing,
                    start: i,
                    end: i + 1,
                    length: 0,
                };
            }
            Class::Quote => return quoted(text, i),
            Class::Letter => return plain(text, i),
        }
    }
    Span {
        kind: Kind::Ending,
        start: text.len(),
        end: text.len(),
        length: 0,
    }
}

// Whether a token is a keyword.
pub fn is_keyword(text: &[u8], t: Span, keyword: &[u8]) -> bool
    ensures { result ≡ is_keyword keyword.now (lexeme_of text.now t).token }
{
    t.kind == Kind::Plain && same(part(text, t.start, t.end), keyword)
}

// The string whose opening quote stands at `at`.
fn quoted(text: &[u8], at: usize) -> Span
    requires at_in_bounds { at < length text.now }
    requires at_value { class_of (get_or text.now at 0) ≡ quote }
    ensures { Next text.now at result }
{
    let last = run_end(text, at + 1, Run::Content);
    let end = if last < text.len() { last + 1 } else { last };
    Span {
        kind: Kind::Quoted,
        start: at,
        end,
        length: last - at - 1,
    }
}

// The plain word that begins at `at`.
fn plain(text: &[u8], at: usize) -> Span
    requires at_in_bounds { at < length text.now }
    requires at_value { class_of (get_or text.now at 0) ≡ letter }
    ensures { Next text.now at result }
{
    let end = run_end(text, at + 1, Run::Letters);
    Span {
        kind: Kind::Plain,
        start: at,
        end,
        length: end - at,
    }
}
