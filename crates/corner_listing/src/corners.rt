// Corners as text.
ghost use Rattle.std.specs.Prelude.{◌≡◌, ◌-◌, ◌*◌, ◌≤◌, length, take};
ghost use Rattle.report_text.specs.Output.{output};
ghost use Rattle.report_lists.specs.Lists.{appended_each, text_of};
ghost use Rattle.player_corners.specs.Answers.{cornered};
ghost use Rattle.corner_listing.specs.Corners.{corner_lines, face_lines, figure_lines, figure_text};

use player_corners::{FaceCorner, Uv, corner};
use report_lists::shown;
use report_rows::append_row;
use table_counts::FigureCounts;

// Puts a corner's line after the first n bytes of buf, or nothing where there is no such corner.
pub fn append_corner(
    buf: &mut [u8],
    n: usize,
    face: usize,
    k: usize,
    answer: Option<FaceCorner>,
) -> usize
    ensures lines { output result buf.new ≡ appended_each (output n buf.old) (corner_lines face k (cornered answer)) }
    ensures most { length (text_of (corner_lines face k (cornered answer))) ≤ 196 }
{
    let Some(found) = answer else {
        return n;
    };
    let f = shown(face);
    let c = shown(k);
    let FaceCorner {
        x,
        y,
        z,
        owner,
        material,
        uv,
    } = found;
    match uv {
        None => append_row(buf, n, b"corner", &[f, c, x, y, z, owner, material]),
        Some(Uv { u, v }) => append_row(buf, n, b"corner", &[f, c, x, y, z, owner, material, u, v]),
    }
}

// Puts the lines of a face's corners.
fn append_face(buf: &mut [u8], n: usize, table: &[i64], counts: FigureCounts, face: usize) -> usize
    ensures lines { output result buf.new ≡ appended_each (output n buf.old) (face_lines counts table.now face) }
    ensures most { length (text_of (face_lines counts table.now face)) ≤ 784 }
{
    let mut filled = n;
    for k in 0..4 {
        let answer = corner(table, counts, face, k);
        filled = append_corner(buf, filled, face, k, answer);
    }
    filled
}

// Puts the lines of each face from first on and before end at the start of buf. With 784 bytes for each they all fit.
pub fn list_corners(
    buf: &mut [u8],
    table: &[i64],
    n: FigureCounts,
    first: usize,
    end: usize,
) -> usize
    ensures lines { output result buf.new ≡ appended_each (output 0 buf.old) (figure_lines n table.now first (end - first)) }
    ensures within { result ≤ length buf.new }
    ensures whole { (end - first) * 784 ≤ length buf.old → take result buf.new ≡ figure_text n table.now first (end - first) }
{
    let mut filled = 0;
    for face in first..end {
        filled = append_face(buf, filled, table, n, face);
    }
    filled
}
