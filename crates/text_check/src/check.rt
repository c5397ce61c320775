// The faults 1 to 4 of a whole text.
ghost use Rattle.std.specs.Prelude.{◌≡◌, suc, ◌<◌, length, drop};
ghost use Rattle.text_check.specs.Faults.{text_fault, fault_in, outside, string, begins, marked};
ghost use Rattle.refusal.specs.Internal.Answers.{refusal};
ghost use Rattle.text_check.specs.Internal.Answers.{scanned, Ahead, format_named};

use refusal::Refusal;
use text_bytes::{Class, class_of, is_between, is_blank};
use text_parts::{part, same};
use text_runs::{Run, run_end};

#[derive(Clone, Copy)]
pub enum Format {
    Bac,
    Tra,
}

// The first fault 1 to 4 of a text of a format.
pub fn check_text(text: &[u8], format: Format) -> Result<(), Refusal>
    ensures { refusal result ≡ text_fault (format_named format) text.now }
{
    if 65536 < text.len() {
        return Err(Refusal {
            number: 1,
            place: 0,
        });
    }
    if !is_marked(text, format) {
        return Err(Refusal {
            number: 2,
            place: 0,
        });
    }
    first_fault(text)
}

fn is_marked(text: &[u8], format: Format) -> bool
    ensures { result ≡ marked (format_named format) text.now }
{
    match format {
        Format::Bac => has_mark(text, b";BAC"),
        Format::Tra => has_mark(text, b";TRA"),
    }
}

// Whether a text begins with a mark of four bytes and then a blank or its end.
fn has_mark(text: &[u8], mark: &[u8]) -> bool
    ensures { result ≡ begins mark.now text.now }
{
    same(part(text, 0, 4), mark) && (text.len() <= 4 || is_blank(text[4]))
}

// The first fault 3 or 4. A string or a comment is passed over at once, so the offset does not go up by one.
fn first_fault(text: &[u8]) -> Result<(), Refusal>
    ensures { refusal result ≡ fault_in outside 0 text.now }
{
    let mut i = 0;
    while i < text.len() {
        match class_of(text[i]) {
            Class::Quote => i = string_end(text, i)?,
            Class::Semicolon => i = run_end(text, i + 1, Run::Line),
            Class::Other => {
                return Err(Refusal {
                    number: 3,
                    place: i,
                });
            }
            Class::Blank | Class::Opener | Class::Closer | Class::Letter => i += 1,
        }
    }
    Ok(())
}

// The offset after the closing quote of the string whose opening quote stands at `quote`, or the string's fault.
fn string_end(text: &[u8], quote: usize) -> Result<usize, Refusal>
    requires { quote < length text.now }
    ensures meaning { scanned text.now result ≡ fault_in (string quote 0) (suc quote) (drop (suc quote) text.now) }
    ensures progress { Ahead quote (length text.now) result }
{
    for i in quote + 1..text.len() {
        let b = text[i];
        if b == 34 {
            return Ok(i + 1);
        }
        if 256 <= i - quote {
            return Err(Refusal {
                number: 4,
                place: quote,
            });
        }
        if !is_between(b, 32, 126) {
            return Err(Refusal {
                number: 3,
                place: i,
            });
        }
    }
    Err(Refusal {
        number: 4,
        place: quote,
    })
}
