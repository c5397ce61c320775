// Indices of a table.
ghost use Rattle.std.specs.Prelude.{◌≡◌, ◌+◌, ◌*◌, min};

// The index `width` on, in a table of n numbers; past its end any index is as good as another.
pub fn advance(i: usize, width: usize, n: usize) -> usize
    ensures { min result n ≡ min (i + width) n }
{
    i.saturating_add(width).min(n)
}

// The index after `count` rows of `width` numbers that begin at index `at`, in a table of n numbers; its end where they do not fit.
pub fn rows_end(at: usize, count: usize, width: usize, n: usize) -> usize
    ensures { result ≡ min (at + count * width) n }
{
    at.saturating_add(count.saturating_mul(width)).min(n)
}
