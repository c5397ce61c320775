#![tactic(auto)]
// The labels of a pair's bones, as lines into a lent buffer.
ghost use Rattle.std.specs.Prelude.{◌≡◌, ◌+◌, ◌*◌, ◌≤◌, length};
ghost use Rattle.report_text.specs.Output.{output};
ghost use Rattle.report_lists.specs.Lists.{appended_each, text_of};
ghost use Rattle.label_listing.specs.Lines.{label_parts, labels_in};

use player_label::label;
use report_lists::shown;
use report_text::{append, append_number};
use table_counts::{FigureCounts, MovementCounts};

// Puts a bone's row and its name after the first n bytes of buf, and answers how many bytes are filled then.
fn append_label(buf: &mut [u8], n: usize, bone: usize, name: &[u8]) -> usize
    ensures parts { output result buf.new ≡ appended_each (output n buf.old) (label_parts bone name.now) }
    ensures most { length (text_of (label_parts bone name.now)) ≤ 28 + length name.now }
{
    let word = append(buf, n, b"label");
    let first = append(buf, word, b"\t");
    let row = append_number(buf, first, shown(bone));
    let second = append(buf, row, b"\t");
    let end = append(buf, second, name);
    append(buf, end, b"\n")
}

// Puts each bone's label after the first filled bytes of buf; 283 bytes a bone hold them.
pub fn append_labels<'a>(
    buf: &mut [u8],
    filled: usize,
    figure: &'a [u8],
    table: &[i64],
    n: FigureCounts,
    movement: &'a [u8],
    moves: &[i64],
    m: MovementCounts,
) -> usize
    ensures lines { output result buf.new ≡ appended_each (output filled buf.old) (labels_in figure.now n table.now movement.now m moves.now) }
    ensures most { length (text_of (labels_in figure.now n table.now movement.now m moves.now)) ≤ n.bones * 283 }
{
    let mut at = filled;
    for bone in 0..n.bones {
        let name = label(figure, table, n, movement, moves, m, bone);
        at = append_label(buf, at, bone, name);
    }
    at
}
