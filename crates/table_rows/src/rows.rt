// Rows and lists set down in a table.
ghost use Rattle.std.specs.Prelude.{◌≡◌, ◌+◌, min, length};
ghost use Rattle.table_rows.specs.Internal.Overlay.{overlay_at};

// Sets a row's numbers down from index `at` on; those past the table's end are dropped.
pub fn store(out: &mut [i64], at: usize, row: &[i64])
    ensures { out.new ≡ overlay_at at row.now out.old }
{
    let start = at.min(out.len());
    let n = row.len().min(out.len() - start);
    out[start..start + n].copy_from_slice(&row[..n]);
}

// Lays a list over a table's numbers from index `at` on, and gives the index after it; numbers past the table's end are dropped.
pub fn put(table: &mut [i64], at: usize, rows: &[i64]) -> usize
    ensures content { table.new ≡ overlay_at at rows.now table.old }
    ensures next { result ≡ min (at + length rows.now) (length table.old) }
{
    let start = at.min(table.len());
    let end = at.saturating_add(rows.len()).min(table.len());
    store(&mut table[start..end], 0, rows);
    end
}
