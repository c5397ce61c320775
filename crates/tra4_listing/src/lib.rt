#![tactic(auto)]
// A movement's listing.
ghost use Rattle.std.specs.Prelude.{◌≡◌, ◌≤◌, length, take};
ghost use Rattle.report_text.specs.Output.{output};
ghost use Rattle.report_lists.specs.Lists.{appended_each, list_lines};
ghost use Rattle.tra4_listing.specs.Movements.{movement_lists, movement_lines, movement_text};

use report_lists::{Progress, append_list, first_line};
use table_counts::MovementCounts;
use tra4::MovementAnswer;

// Puts the lines of the lists after the first n bytes of buf, and answers how many bytes are filled then.
fn append_lists(n: MovementCounts, table: &[i64], buf: &mut [u8], start: usize) -> usize
    ensures { output result buf.new ≡ appended_each (output start buf.old) (list_lines (movement_lists n) table.now) }
{
    let frames = append_list(
        buf,
        Progress {
            filled: start,
            at: 0,
        },
        b"frames",
        1,
        1,
        table,
    );
    let names = append_list(buf, frames, b"name", 2, 1, table);
    let bones = append_list(buf, names, b"bone", 22, n.bones, table);
    let keys = append_list(buf, bones, b"key", 2, n.keys, table);
    let patterns = append_list(buf, keys, b"pattern", 3, n.patterns, table);
    patterns.filled
}

// Puts a movement's listing, or a refusal's line, at the start of buf and answers how many bytes are filled. A line that does
// not fit is left out; `movement-most` says what buffer every listing fits in.
pub fn list_movement(answer: MovementAnswer, table: &[i64], buf: &mut [u8]) -> usize
    ensures lines { output result buf.new ≡ appended_each (output 0 buf.old) (movement_lines answer table.now) }
    ensures within { result ≤ length buf.new }
    ensures whole { length (movement_text answer table.now) ≤ length buf.old → take result buf.new ≡ movement_text answer table.now }
{
    let n = first_line(buf, b"movement", answer.refusal, answer.place, answer.total);
    if answer.refusal != 0 {
        return n;
    }
    let counts = answer.counts;
    append_lists(counts, table, buf, n)
}
