// A bone's keys, laid channel by channel.
ghost use Rattle.std.specs.Prelude.{◌≡◌, ◌+◌, ◌*◌, ◌≤◌, ◌<◌, pos, nat_abs, length, get_or, set};
ghost use Rattle.table_rows.specs.Internal.Overlay.{overlay_at};
ghost use Rattle.tra4_text.specs.Layout.{first_row};
ghost use Rattle.tra4_bone.specs.Internal.Laying.{range_rows, gathered, ranges_total, renumbered, RangeIn, Within};

use table_rows::store;

// Copies the key rows of ten ranges (first row, count) to a table, one after the other from a row on; the ranges
// then say where they lie there. Numbers past the table's end are dropped.
pub(crate) fn lay_keys(ranges: &mut [i64], keys: &[i64], table: &mut [i64], row: usize)
    requires { (length ranges.old ≡ 20) × Within 4096 ranges.old × (length keys.now ≡ 8192) × (row + ranges_total ranges.old ≤ 4096) }
    ensures numbers { ranges.new ≡ renumbered row ranges.old }
    ensures content { table.new ≡ overlay_at (row * 2) (gathered ranges.old keys.now) table.old }
{
    let mut next = row;
    for k in 0..10 {
        next = lay_range(ranges, k * 2, keys, table, next);
    }
}

// The same of the range at index `at`; gives the row after its last.
fn lay_range(ranges: &mut [i64], at: usize, keys: &[i64], table: &mut [i64], row: usize) -> usize
    requires { (at + 1 < length ranges.old) × RangeIn 4096 (get_or ranges.old at (pos 0)) (get_or ranges.old (at + 1) (pos 0)) × (length keys.now ≡ 8192) × (row ≤ 4096) }
    ensures next { result ≡ row + nat_abs (get_or ranges.old (at + 1) (pos 0)) }
    ensures number { ranges.new ≡ set ranges.old at (pos (first_row row (nat_abs (get_or ranges.old (at + 1) (pos 0))))) }
    ensures content { table.new ≡ overlay_at (row * 2) (range_rows (get_or ranges.old at (pos 0)) (get_or ranges.old (at + 1) (pos 0)) keys.now) table.old }
{
    let first = ranges[at] as usize;
    let count = ranges[at + 1] as usize;
    let from = first * 2;
    let size = count * 2;
    store(table, row * 2, &keys[from..from + size]);
    ranges[at] = first_row(row, count) as i64;
    row + count
}

// The first row of so many keys that stand from a row on; of none it is 0.
fn first_row(row: usize, count: usize) -> usize
    ensures { result ≡ first_row row count }
{
    if count == 0 {
        return 0;
    }
    row
}
