// The owner of a vertex.
ghost use Rattle.std.specs.Prelude.{◌≡◌, nat_abs};
ghost use Rattle.table_columns.specs.Parts.{number_at};

use crate::corner::VertexRow;

// By the list of owners; 0 where it has no such row.
pub fn owner_at(owners: &[i64], v: VertexRow) -> i64
    ensures { result ≡ number_at owners.now (nat_abs v.0) }
{
    let i = signed::magnitude(v.0) as usize;
    owners.get(i).copied().unwrap_or(0)
}
