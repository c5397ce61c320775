// A first row and a count.
ghost use Rattle.std.specs.Prelude.{◌≡◌};
ghost use Rattle.player_spec.specs.Lookups.{is_range};

// Whether a first row and a count lie among n rows; where the count is 0, of a channel that is left out, the row is 0 too.
pub fn is_range(n: usize, first: i64, count: i64) -> bool
    ensures { result ≡ is_range n first count }
{
    if count == 0 {
        return first == 0;
    }
    0 <= first && 0 < count && first as usize + count as usize <= n
}
