// Faces one after another: each a row of eleven numbers.
ghost use Rattle.std.specs.Prelude.{◌≡◌, Ok};
ghost use Rattle.parse_cursor.specs.Internal.Cursors.{from, parsed};
ghost use Rattle.parse_rows.specs.Internal.Folds.{folded};
ghost use Rattle.bac6_text.specs.Grammar.{face};
ghost use Rattle.bac6_faces.specs.Internal.Into.{face_step};
ghost use Rattle.bac6_faces.specs.Internal.Bounds.{Bounded, Fewer};

use bac6_face::face_tail;
use parse_cursor::Parsed;
use table_counts::FACE_WIDTH;

// Faces up to ), their rows to the table after the `count` that stand there.
pub(crate) fn face_list(
    text: &[u8],
    start: usize,
    group: i64,
    out: &mut [i64],
    count: usize,
) -> Parsed<usize>
    requires { Bounded text.now start count }
    ensures out_after { parsed text.now result (λ n. (n, out.new)) ≡ from text.now (Ok start) (folded (face_step group) face (count, out.old)) }
    ensures fewer { Fewer text.now start count result }
{
    let mut at = start;
    let mut n = count;
    loop {
        let (ended, next) = parse_numbers::next_item(text, Ok(at))?;
        if ended {
            return Ok((n, next));
        }
        // Past the table's end any index is as good as another.
        let to = n.saturating_mul(FACE_WIDTH);
        at = face_tail(text, Ok(next), group, out, to)?;
        n += 1;
    }
}
