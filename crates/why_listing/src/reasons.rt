// Why faces are shown or hidden, as text.
ghost use Rattle.std.specs.Prelude.{◌≡◌, ◌-◌, ◌*◌, ◌≤◌, length, take, Some};
ghost use Rattle.report_text.specs.Output.{output, appended};
ghost use Rattle.report_lists.specs.Lists.{appended_each, text_of};
ghost use Rattle.player_why.specs.Answers.{explained};
ghost use Rattle.why_listing.specs.Reasons.{head_parts, reason_line, why_parts, why_lines, why_text};

use player_why::{Reason, why};
use report_lists::shown;
use report_rows::append_row;
use report_text::{append, append_number};
use table_counts::{FigureCounts, MovementCounts};

// Puts the line's word, face and frame after the first n bytes of buf.
fn append_head(buf: &mut [u8], n: usize, face: usize, at: usize) -> usize
    ensures { output result buf.new ≡ appended_each (output n buf.old) (head_parts face at) }
{
    let word = append(buf, n, b"why");
    let first = append(buf, word, b"\t");
    let row = append_number(buf, first, shown(face));
    let second = append(buf, row, b"\t");
    append_number(buf, second, shown(at))
}

// Puts the rest of the line after the first n bytes of buf.
fn append_reason(buf: &mut [u8], n: usize, reason: Reason) -> usize
    ensures { output result buf.new ≡ appended (output n buf.old) (reason_line (explained (Some reason))) }
{
    match reason {
        Reason::Shown => append(buf, n, b"\tshown\n"),
        Reason::Corner(corner) => append_row(buf, n, b"\tcorner", &[shown(corner)]),
        Reason::Unset => append(buf, n, b"\tunset\n"),
        Reason::Line(row) => append_row(buf, n, b"\tline", &[shown(row)]),
    }
}

// Puts a line of face, frame and reason, or a refusal's, after the first n bytes of buf.
pub fn append_why(buf: &mut [u8], n: usize, face: usize, at: usize, answer: Option<Reason>) -> usize
    ensures parts { output result buf.new ≡ appended_each (output n buf.old) (why_parts face at (explained answer)) }
    ensures most { length (text_of (why_parts face at (explained answer))) ≤ 74 }
{
    match answer {
        None => append_row(buf, n, b"refused", &[21, 0]),
        Some(reason) => {
            let head = append_head(buf, n, face, at);
            append_reason(buf, head, reason)
        }
    }
}

// Puts a line for each frame from first on and before end at the start of buf. With 74 bytes for each they all fit.
pub fn list_why(
    buf: &mut [u8],
    table: &[i64],
    n: FigureCounts,
    moves: &[i64],
    m: MovementCounts,
    face: usize,
    first: usize,
    end: usize,
) -> usize
    ensures lines { output result buf.new ≡ appended_each (output 0 buf.old) (why_lines n table.now m moves.now face first (end - first)) }
    ensures within { result ≤ length buf.new }
    ensures whole { (end - first) * 74 ≤ length buf.old → take result buf.new ≡ why_text n table.now m moves.now face first (end - first) }
{
    let mut filled = 0;
    for at in first..end {
        let answer = why(table, n, moves, m, face, at);
        filled = append_why(buf, filled, face, at, answer);
    }
    filled
}
