// Rule 15: the keys of a channel, each tested against the frame before it.
ghost use Rattle.std.specs.Prelude.{◌≡◌, ◌&&◌, ◌-◌};
ghost use Rattle.std.proofs.Math.Option.{none};
ghost use Rattle.refusal.specs.Internal.Answers.{refusal};
ghost use Rattle.tra4_text.specs.Rules.{is_frame, rises, channel_fault};
ghost use Rattle.table_columns.specs.Parts.{rows_of};
ghost use Rattle.tra4_frames.specs.Internal.Frames.{before_of};

use refusal::Refusal;
use table_counts::KEY_WIDTH;
use tra4_tests::is_frame;

// The first of the keys from `row` up to `end` that breaks the rule, where the table begins with them.
// A row that is not whole is not looked at.
pub fn channel_fault(total: i64, keys: &[i64], row: usize, end: usize) -> Result<(), Refusal>
    ensures { refusal result ≡ channel_fault total none row (rows_of 2 (end - row) keys.now) }
{
    let mut before = None;
    for i in 0..end.saturating_sub(row).min(keys.len() / KEY_WIDTH) {
        let frame = keys[i * KEY_WIDTH];
        if !key_fits(total, before, frame) {
            return Err(Refusal {
                number: 15,
                place: row + i,
            });
        }
        before = Some(frame);
    }
    Ok(())
}

// Whether a key's frame is one of the movement's and may follow another: the first is 0, and any other rises.
fn key_fits(total: i64, before: Option<i64>, frame: i64) -> bool
    ensures { result ≡ (is_frame total frame && rises (before_of before) frame) }
{
    is_frame(total, frame)
        && match before {
            None => frame == 0,
            Some(earlier) => earlier < frame,
        }
}
