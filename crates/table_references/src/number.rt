// What a number that refers to a row may be.
ghost use Rattle.std.specs.Prelude.{◌≡◌};
ghost use Rattle.table_references.specs.References.{is_row, is_none};
ghost use Rattle.table_references.specs.Index.{is_index};

// A row of a list of `n` rows.
pub fn is_row(n: usize, z: i64) -> bool
    ensures { result ≡ is_row n z }
{
    0 <= z && (z as usize) < n
}

// No row.
pub fn is_none(z: i64) -> bool
    ensures { result ≡ is_none z }
{
    z == -1
}

// None, or a row of a list of `n` rows.
pub fn is_index(n: usize, z: i64) -> bool
    ensures { result ≡ is_index n z }
{
    is_none(z) || is_row(n, z)
}
