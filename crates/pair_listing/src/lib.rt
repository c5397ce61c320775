#![tactic(auto)]
// The reply to loading a pair, as text into a lent buffer.
ghost use Rattle.std.specs.Prelude.{◌≡◌, ◌≤◌, length, take};
ghost use Rattle.io.specs.Counts.{IsPrefixLen};
ghost use Rattle.report_text.specs.Output.{output, appended};
ghost use Rattle.pair_listing.specs.Lines.{reply_line};

use report_lists::shown;
use report_rows::append_row;

// Puts a refusal's number, place and file, or the two totals where nothing is refused, at the start of buf. 71 bytes hold both.
pub fn list_reply(
    buf: &mut [u8],
    refusal: usize,
    place: usize,
    file: usize,
    figure_total: usize,
    movement_total: usize,
) -> usize
    ensures line { output result buf.new ≡ appended (output 0 buf.old) (reply_line refusal place file figure_total movement_total) }
    ensures within { IsPrefixLen result buf.new }
    ensures whole { 71 ≤ length buf.old → take result buf.new ≡ reply_line refusal place file figure_total movement_total }
{
    if refusal != 0 {
        return append_row(
            buf,
            0,
            b"refused",
            &[shown(refusal), shown(place), shown(file)],
        );
    }
    append_row(
        buf,
        0,
        b"pair",
        &[shown(figure_total), shown(movement_total)],
    )
}
