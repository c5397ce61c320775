// Reads a movement's text into a lent table.
ghost use Rattle.std.specs.Prelude.{◌≡◌, length};
ghost use Rattle.tra4_text.specs.Answer.{movement_answer, movement_table};
ghost use Rattle.tra4.specs.Answers.{answer_of};
ghost use Rattle.tra4.specs.Internal.Checks.{Held};
ghost use Rattle.tra4.specs.Internal.Answers.{RowsAnswered};

use crate::setting::{MovementAnswer, refused, set_down};
use text_check::Format;
use tra4_parse::{Shape, parse};

// The answer is document 01's, and the table holds the layout from its start on; or, where refused, what it held.
// Each list is read into room for its most rows, and the lent table is written only once all is checked.
pub fn read(text: &[u8], table: &mut [i64]) -> MovementAnswer
    ensures answer { result ≡ answer_of (movement_answer text.now (length table.old)) }
    ensures content { table.new ≡ movement_table text.now table.old }
{
    if let Err(e) = text_check::check_text(text, Format::Tra) {
        return refused(e);
    }
    let mut bone_rows = [0i64; 2816];
    let mut key_rows = [0i64; 8192];
    let mut pattern_rows = [0i64; 768];
    match parse(text, &mut bone_rows, &mut key_rows, &mut pattern_rows) {
        Err(e) => refused(e),
        Ok((p, _)) => read_rows(table, p, &bone_rows, &key_rows, &pattern_rows),
    }
}

// The rules run over the rows, and the lent table is written where all of them hold.
fn read_rows(
    table: &mut [i64],
    p: Shape,
    bone_rows: &[i64],
    key_rows: &[i64],
    pattern_rows: &[i64],
) -> MovementAnswer
    requires { Held p bone_rows.now key_rows.now pattern_rows.now }
    ensures { RowsAnswered p bone_rows.now key_rows.now pattern_rows.now table.old table.new result }
{
    // Where there are too many keys, one more than the most stands for their count.
    let keys = p.keys.unwrap_or(4097);
    match tra4_rules::first_fault(
        p.total,
        p.bones,
        keys,
        p.patterns,
        bone_rows,
        key_rows,
        pattern_rows,
    ) {
        Err(e) => refused(e),
        Ok(()) => set_down(table, p, bone_rows, key_rows, pattern_rows),
    }
}
