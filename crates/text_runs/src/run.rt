// The longest run of bytes of one kind.
ghost use Rattle.std.specs.Prelude.{◌≡◌, ◌+◌, length, drop};
ghost use Rattle.text_runs.specs.Runs.{run};
ghost use Rattle.text_runs.specs.Internal.Answers.{test_named};

use text_bytes::{is_between, is_letter};

// Runs of bytes: a plain word's letters, a comment's line, a string's content, digits, a word of a list that spaces part.
#[derive(Clone, Copy)]
pub enum Run {
    Letters,
    Line,
    Content,
    Digits,
    Word,
}

#[tactic(auto, unfolding(crate::specs::Internal::Answers::test_named, text_bytes::specs::Bytes::in_line, text_bytes::specs::Bytes::in_string, text_bytes::specs::Bytes::in_word, text_bytes::specs::Bytes::is_digit))]
pub(crate) fn belongs(kind: Run, b: u8) -> bool
    ensures { result ≡ test_named kind b }
{
    match kind {
        Run::Letters => is_letter(b),
        Run::Line => b != 10,
        Run::Content => b != 34,
        Run::Digits => is_between(b, 48, 57),
        Run::Word => b != 32,
    }
}

// Where the run of bytes of a kind that begins at `from` ends.
pub fn run_end(text: &[u8], from: usize, kind: Run) -> usize
    ensures { result ≡ from + length (run (test_named kind) (drop from text.now)) }
{
    for i in from..text.len() {
        if !belongs(kind, text[i]) {
            return i;
        }
    }
    from.max(text.len())
}
