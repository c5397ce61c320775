#![tactic(auto)]
// Prints the movement that stands on standard input at every frame: a line for each bone, channel and frame.
use table_counts::MovementCounts;
use tra4::MovementAnswer;

const STDIN_FILENO: i32 = 0;

const STDOUT_FILENO: i32 = 1;

// 256 frames at a time, for which 28,672 bytes are enough. What is written to a file no contract can say.
fn tell_channel(table: &[i64], n: MovementCounts, bone: usize, channel: usize, total: usize) {
    let mut out = [0u8; 28672];
    for at in (0..total).step_by(256) {
        let end = at + total.saturating_sub(at).min(256);
        let filled = sample_listing::list_samples(&mut out, table, n, bone, channel, at, end);
        io::write_all(STDOUT_FILENO, &out[..filled]);
    }
}

fn tell_bone(table: &[i64], n: MovementCounts, bone: usize, total: usize) {
    for channel in 0..10 {
        tell_channel(table, n, bone, channel, total);
    }
}

fn tell_bones(table: &[i64], n: MovementCounts, total: usize) {
    for bone in 0..n.bones {
        tell_bone(table, n, bone, total);
    }
}

fn tell_refusal(answer: MovementAnswer) {
    let mut out = [0u8; 64];
    let filled = report_lists::first_line(&mut out, b"movement", answer.refusal, answer.place, 0);
    io::write_all(STDOUT_FILENO, &out[..filled]);
}

fn main() {
    // A byte more than the longest text: a longer one is refused with 1, and not cut.
    let mut text = [0u8; 65537];
    let size = io::read_full(STDIN_FILENO, &mut text);
    let mut table = [0i64; 11779];
    let answer = tra4::read(&text[..size], &mut table);
    if answer.refusal != 0 {
        tell_refusal(answer);
        return;
    }
    let n = answer.counts;
    let total = signed::magnitude(table[0]) as usize;
    tell_bones(&table, n, total);
}
