// A group: a name, and faces that carry the group's row.
ghost use Rattle.std.specs.Prelude.{◌≡◌, ◌+◌, ◌≤◌, length, Ok};
ghost use Rattle.parse_cursor.specs.Internal.Cursors.{from, parsed};
ghost use Rattle.parse_rows.specs.Internal.Folds.{stepped, folded};
ghost use Rattle.bac6_text.specs.Grammar.{group as group_read};
ghost use Rattle.bac6_faces.specs.Internal.Into.{group_tail, group_step};
ghost use Rattle.bac6_faces.specs.Internal.Bounds.{Bounded, Fewer};

use crate::list::face_list;
use parse_cursor::Parsed;

// How many faces and groups were read.
#[derive(Clone, Copy, PartialEq, Eq)]
pub struct Polygons {
    pub faces: usize,
    pub groups: usize,
}

// What stands in a group after its (: its name goes to row `group` of the names, its faces after the `count` that stand in their table.
fn group_tail(
    text: &[u8],
    start: usize,
    group: usize,
    faces: &mut [i64],
    count: usize,
    names: &mut [i64],
) -> Parsed<usize>
    requires group_in_bounds { group ≤ length text.now }
    requires bounded { Bounded text.now start count }
    ensures faces_after { parsed text.now result (λ n. ((group + 1, names.new), (n, faces.new))) ≡ from text.now (Ok start) (stepped group_step group_tail ((group, names.old), (count, faces.old))) }
    ensures fewer { Fewer text.now start count result }
{
    let d = parse_cursor::keyword(text, Ok(start), b"group");
    let (name, at) = parse_names::optional_name(text, d)?;
    let row = [name.place as i64, name.length as i64];
    table_rows::store(names, group.saturating_mul(2), &row);
    face_list(text, at, group as i64, faces, count)
}

// Groups up to ), their faces after the `count` that stand in the table.
pub(crate) fn group_list(
    text: &[u8],
    start: usize,
    faces: &mut [i64],
    count: usize,
    names: &mut [i64],
) -> Parsed<Polygons>
    requires { Bounded text.now start count }
    ensures { parsed text.now result (λ p. ((p.groups, names.new), (p.faces, faces.new))) ≡ from text.now (Ok start) (folded group_step group_read ((0, names.old), (count, faces.old))) }
{
    let mut at = start;
    let mut n = count;
    let mut i = 0;
    loop {
        let (ended, next) = parse_numbers::next_item(text, Ok(at))?;
        if ended {
            let read = Polygons {
                faces: n,
                groups: i,
            };
            return Ok((read, next));
        }
        let (faces_so_far, past) = group_tail(text, next, i, faces, n, names)?;
        n = faces_so_far;
        at = past;
        i += 1;
    }
}
