#![tactic(auto)]
// What is printed of an input that is to be a pair, as text into a lent buffer.
ghost use Rattle.std.specs.Prelude.{◌≡◌, ◌≤◌, length, take};
ghost use Rattle.io.specs.Counts.{IsPrefixLen};
ghost use Rattle.report_text.specs.Output.{output};
ghost use Rattle.report_lists.specs.Lists.{appended_each, text_of};
ghost use Rattle.pair_output.specs.Printing.{texts_lines, input_lines, input_text};

use label_listing::append_labels;
use pair_head::divide;
use pair_listing::list_reply;

// Loads two texts as a pair, and puts the reply and each bone's label at the start of buf.
fn list_texts<'a>(buf: &mut [u8], figure: &'a [u8], movement: &'a [u8]) -> usize
    ensures lines { output result buf.new ≡ appended_each (output 0 buf.old) (texts_lines figure.now movement.now) }
    ensures most { length (text_of (texts_lines figure.now movement.now)) ≤ 36295 }
{
    let mut table = [0i64; 8192];
    let mut moves = [0i64; 11779];
    let answer = pair_load::load(figure, movement, &mut table, &mut moves);
    let filled = list_reply(
        buf,
        answer.refusal,
        answer.place,
        answer.file,
        answer.figure_total,
        answer.movement_total,
    );
    let n = answer.figure;
    let m = answer.movement;
    append_labels(buf, filled, figure, &table, n, movement, &moves, m)
}

// Puts what is printed of an input, of which a text is at hand and more bytes follow, at the start of buf. 36,295 bytes hold it.
pub fn list_input(buf: &mut [u8], text: &[u8], more: usize) -> usize
    ensures lines { output result buf.new ≡ appended_each (output 0 buf.old) (input_lines text.now more) }
    ensures within { IsPrefixLen result buf.new }
    ensures whole { 36295 ≤ length buf.old → take result buf.new ≡ input_text text.now more }
{
    match divide(text, more) {
        Err(e) => list_reply(buf, e.number as usize, 0, 0, 0, 0),
        Ok(end) => list_texts(
            buf,
            text_parts::part(text, 9, end),
            text_parts::part(text, end, text.len()),
        ),
    }
}
