// Whether faces are shown, as text.
ghost use Rattle.std.specs.Prelude.{◌≡◌, ◌-◌, ◌*◌, ◌≤◌, length, take};
ghost use Rattle.report_text.specs.Output.{output, appended};
ghost use Rattle.report_lists.specs.Lists.{appended_each};
ghost use Rattle.player_shown.specs.Answers.{showed};
ghost use Rattle.shown_listing.specs.Faces.{shown_line, shown_lines, shown_text};

use report_lists::shown;
use report_rows::append_row;
use table_counts::{FigureCounts, MovementCounts};

// Puts a line of face, frame and 1 or 0, or a refusal's, after the first n bytes of buf.
fn append_shown(buf: &mut [u8], n: usize, face: usize, at: usize, answer: Option<bool>) -> usize
    ensures line { output result buf.new ≡ appended (output n buf.old) (shown_line face at (showed answer)) }
    ensures most { length (shown_line face at (showed answer)) ≤ 69 }
{
    let Some(is_shown) = answer else {
        return append_row(buf, n, b"refused", &[21, 0]);
    };
    append_row(
        buf,
        n,
        b"shown",
        &[shown(face), shown(at), i64::from(is_shown)],
    )
}

// Puts a line for each frame from first on and before end at the start of buf. With 69 bytes for each they all fit.
pub fn list_shown(
    buf: &mut [u8],
    table: &[i64],
    n: FigureCounts,
    moves: &[i64],
    m: MovementCounts,
    face: usize,
    first: usize,
    end: usize,
) -> usize
    ensures lines { output result buf.new ≡ appended_each (output 0 buf.old) (shown_lines n table.now m moves.now face first (end - first)) }
    ensures within { result ≤ length buf.new }
    ensures whole { (end - first) * 69 ≤ length buf.old → take result buf.new ≡ shown_text n table.now m moves.now face first (end - first) }
{
    let mut filled = 0;
    for at in first..end {
        let answer = player_shown::shown(table, n, moves, m, face, at);
        filled = append_shown(buf, filled, face, at, answer);
    }
    filled
}
