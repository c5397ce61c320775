// Samples as text.
ghost use Rattle.std.specs.Prelude.{◌≡◌, ◌-◌, ◌*◌, ◌≤◌, length, take};
ghost use Rattle.report_text.specs.Output.{output, appended};
ghost use Rattle.report_lists.specs.Lists.{appended_each};
ghost use Rattle.player_channel.specs.Answers.{sampled};
ghost use Rattle.sample_listing.specs.Samples.{sample_line, sample_lines, sample_text};

use player_channel::Sample;
use player_samples::sample;
use report_lists::shown;
use report_rows::append_row;
use table_counts::MovementCounts;

// Puts a sample's line, or a refusal's, after the first n bytes of buf, and answers how many bytes are filled then.
fn append_sample(
    buf: &mut [u8],
    n: usize,
    bone: usize,
    channel: usize,
    at: usize,
    answer: Option<Sample>,
) -> usize
    ensures line { output result buf.new ≡ appended (output n buf.old) (sample_line bone channel at (sampled answer)) }
    ensures most { length (sample_line bone channel at (sampled answer)) ≤ 112 }
{
    let Some(sample) = answer else {
        return append_row(buf, n, b"refused", &[21, 0]);
    };
    append_row(
        buf,
        n,
        b"sample",
        &[
            shown(bone),
            shown(channel),
            shown(at),
            sample.numerator,
            shown(sample.denominator as usize),
        ],
    )
}

// Puts a line for each frame from first on and before end at the start of buf. With 112 bytes for each they all fit.
pub fn list_samples(
    buf: &mut [u8],
    table: &[i64],
    n: MovementCounts,
    bone: usize,
    channel: usize,
    first: usize,
    end: usize,
) -> usize
    ensures lines { output result buf.new ≡ appended_each (output 0 buf.old) (sample_lines n table.now bone channel first (end - first)) }
    ensures within { result ≤ length buf.new }
    ensures whole { (end - first) * 112 ≤ length buf.old → take result buf.new ≡ sample_text n table.now bone channel first (end - first) }
{
    let mut filled = 0;
    for at in first..end {
        let answer = sample(table, n, bone, channel, at);
        filled = append_sample(buf, filled, bone, channel, at, answer);
    }
    filled
}
