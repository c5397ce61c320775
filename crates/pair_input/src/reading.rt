// An input that may be longer than the buffer lent for it.
ghost use Rattle.std.specs.Prelude.{◌<◌};
ghost use Rattle.pair_input.specs.Reading.{Taken};

// How many bytes of a text are filled, and how many bytes of the input follow them.
#[derive(Clone, Copy)]
pub struct Input {
    pub size: usize,
    pub more: usize,
}

// How many bytes are left to read, a block at a time, until one is not full: how many blocks there are is not known before. A hundred million are as good as more, since a head says less.
fn count_rest(fd: i32) -> usize
    ensures { result < 100004096 }
{
    let mut block = [0u8; 4096];
    let mut count: usize = 0;
    while count < 100000000 {
        let n = io::read_full(fd, &mut block);
        count += n;
        if n < 4096 {
            return count;
        }
    }
    count
}

// Fills a text, and counts the bytes that follow where it is full. What is read is free: no contract can say it.
pub fn read_input(fd: i32, text: &mut [u8]) -> Input
    ensures { Taken text.new result }
{
    let size = io::read_full(fd, text);
    if size < text.len() {
        return Input { size, more: 0 };
    }
    Input {
        size,
        more: count_rest(fd),
    }
}
