// Parts of bytes.
ghost use Rattle.std.specs.Prelude.{◌≡◌};
ghost use Rattle.text_runs.specs.Runs.{part as part_of, same as same_bytes};

// The bytes from `start` up to `end`, or as many of them as there are.
pub fn part(text: &[u8], start: usize, end: usize) -> &[u8]
    ensures { result.now ≡ part_of text.now start end }
{
    let end = end.min(text.len());
    &text[start.min(end)..end]
}

// Whether two lists of bytes are the same: a plain token's and a keyword's.
pub fn same(a: &[u8], b: &[u8]) -> bool
    ensures { result ≡ same_bytes a.now b.now }
{
    a == b
}
