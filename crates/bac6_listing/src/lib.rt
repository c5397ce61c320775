#![tactic(auto)]
// A figure's listing (document 01, "Listing").
ghost use Rattle.std.specs.Prelude.{◌≡◌, ◌≤◌, length, take};
ghost use Rattle.report_text.specs.Output.{output};
ghost use Rattle.report_lists.specs.Lists.{appended_each, list_lines};
ghost use Rattle.bac6_listing.specs.Figures.{figure_lists, figure_lines, figure_text};

use bac6::FigureAnswer;
use report_lists::{Progress, append_list, first_line};
use table_counts::FigureCounts;

// Puts the lines of the lists after the first `start` bytes of buf, and answers how many bytes are filled then. Each list has a word,
// how many numbers a row has and how many rows there are.
fn append_lists(n: FigureCounts, table: &[i64], buf: &mut [u8], start: usize) -> usize
    ensures { output result buf.new ≡ appended_each (output start buf.old) (list_lines (figure_lists n) table.now) }
{
    let lists: [(&[u8], usize, usize); 11] = [
        (b"name", 2, 1),
        (b"texture", 2, n.textures),
        (b"colour", 3, n.colours),
        (b"material", 9, n.materials),
        (b"point", 3, n.points),
        (b"normal", 3, n.normals),
        (b"bone", 14, n.bones),
        (b"owner", 1, n.points),
        (b"uv", 2, n.uvs),
        (b"face", 11, n.faces),
        (b"group", 2, n.groups),
    ];
    let mut p = Progress {
        filled: start,
        at: 0,
    };
    for (word, width, count) in lists {
        p = append_list(buf, p, word, width, count, table);
    }
    p.filled
}

// Puts a figure's listing, or a refusal's line, at the start of buf and answers how many bytes are filled. A line that does
// not fit is left out; `figure-most` says what buffer every listing fits in.
pub fn list_figure(answer: FigureAnswer, table: &[i64], buf: &mut [u8]) -> usize
    ensures lines { output result buf.new ≡ appended_each (output 0 buf.old) (figure_lines answer table.now) }
    ensures within { result ≤ length buf.new }
    ensures whole { length (figure_text answer table.now) ≤ length buf.old → take result buf.new ≡ figure_text answer table.now }
{
    let n = first_line(buf, b"figure", answer.refusal, answer.place, answer.total);
    if answer.refusal != 0 {
        return n;
    }
    let counts = answer.counts;
    append_lists(counts, table, buf, n)
}
