// Bytes put at the end of what a buffer holds.
ghost use Rattle.std.specs.Prelude.{◌≡◌, ◌+◌, leb};
ghost use Rattle.report_text.specs.Output.{output, appended};

// Whether k bytes after the first n fit in size.
pub fn has_room(size: usize, n: usize, k: usize) -> bool
    ensures { result ≡ leb (n + k) size }
{
    n <= size && k <= size - n
}

// Puts bytes after the first n of buf and answers how many those are then. Bytes that do not all fit change nothing.
pub fn append(buf: &mut [u8], n: usize, bytes: &[u8]) -> usize
    ensures { output result buf.new ≡ appended (output n buf.old) bytes.now }
{
    if !has_room(buf.len(), n, bytes.len()) {
        return n;
    }
    let end = n + bytes.len();
    buf[n..end].copy_from_slice(bytes);
    end
}
