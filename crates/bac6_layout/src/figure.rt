// A figure's numbers laid over a table, list by list.
ghost use Rattle.std.specs.Prelude.{◌≡◌, ◌+◌, ◌-◌, ◌≤◌, min, length, take, drop};
ghost use Rattle.table_rows.specs.Internal.Overlay.{overlay_at};
ghost use Rattle.bac6_layout.specs.Internal.Ends.{Rising};
ghost use Rattle.bac6_layout.specs.Internal.Numbers.{sum_of, numbers_of};

use crate::ends::{Ends, row_ends};
use table_counts::FigureCounts;
use table_index::rows_end;
use table_rows::put;

// Lists of so many numbers that stand one after the other in `rows` from an index on, laid one by one; gives the index after them.
fn put_lists(table: &mut [i64], at: usize, rows: &[i64], begin: usize, sizes: &[usize]) -> usize
    requires { begin + sum_of sizes.now ≤ length rows.now }
    ensures content { table.new ≡ overlay_at at (take (sum_of sizes.now) (drop begin rows.now)) table.old }
    ensures next { min result (length table.old) ≡ min (at + sum_of sizes.now) (length table.old) }
{
    let mut to = at;
    let mut from = begin;
    for size in sizes {
        let end = from + *size;
        to = put(table, to, &rows[from..end]);
        from = end;
    }
    to
}

// The lists before the owners.
fn put_front(table: &mut [i64], at: usize, e: Ends, rows: &[i64]) -> usize
    requires { Rising e (length rows.now) }
    ensures content { table.new ≡ overlay_at at (take e.bones rows.now) table.old }
    ensures next { min result (length table.old) ≡ min (at + e.bones) (length table.old) }
{
    let sizes = [
        e.textures,
        e.colours - e.textures,
        e.materials - e.colours,
        e.points - e.materials,
        e.normals - e.points,
        e.bones - e.normals,
    ];
    put_lists(table, at, rows, 0, &sizes)
}

// The lists after the owners.
fn put_back(table: &mut [i64], at: usize, e: Ends, rows: &[i64]) -> usize
    requires { Rising e (length rows.now) }
    ensures content { table.new ≡ overlay_at at (take (e.faces - e.bones) (drop e.bones rows.now)) table.old }
    ensures next { min result (length table.old) ≡ min (at + (e.faces - e.bones)) (length table.old) }
{
    let sizes = [e.uvs - e.bones, e.faces - e.uvs];
    put_lists(table, at, rows, e.bones, &sizes)
}

// The name, the lists before the owners, the owners, those after them, and the groups' names, without gaps; numbers past the table's end are dropped.
pub fn lay(
    table: &mut [i64],
    n: FigureCounts,
    name: &[i64],
    rows: &[i64],
    owners: &[i64],
    names: &[i64],
)
    ensures { table.new ≡ overlay_at 0 (numbers_of n name.now rows.now owners.now names.now) table.old }
{
    let e = row_ends(n, rows.len());
    let points = rows_end(0, n.points, 1, owners.len());
    let groups = rows_end(0, n.groups, 2, names.len());
    let named = put(table, 0, name);
    let fronts = put_front(table, named, e, rows);
    let owned = put(table, fronts, &owners[..points]);
    let backs = put_back(table, owned, e, rows);
    put(table, backs, &names[..groups]);
}
