// A bone's channels, in any order, each at most once: their keys to a table in text order, and where each channel's stand.
// How many keys stand in the table goes through as a count, or none where there are more than fit; after a refusal all tables are free, and
// where there were too many, the table of keys and that of ranges are.
ghost use Rattle.std.specs.Prelude.{◌≡◌, ◌<◌, ◌≤◌, pos, length, replicate, unwrap_or};
ghost use Rattle.text_tokens.specs.Tokens.{lex_at};
ghost use Rattle.parse_spec.specs.Fields.{fields};
ghost use Rattle.tra4_text.specs.Grammar.{channel_kinds};
ghost use Rattle.parse_chunks.specs.Internal.Heads.{ReachedBy};
ghost use Rattle.tra4_channels.specs.Internal.Held.{HeldBy, KeysRead};

use parse_cursor::Parsed;
use parse_numbers::Form;
use table_counts::{KEY_WIDTH, MOST_KEYS};

// The keys of channel k, to the table after those that stand there, and their first row and count to the ranges.
fn channel_keys(
    text: &[u8],
    at: usize,
    k: usize,
    ranges: &mut [i64],
    keys: &mut [i64],
    count: Option<usize>,
) -> Parsed<Option<usize>>
    requires { (k < 10) × (length ranges.old ≡ 20) × (length keys.old ≡ 8192) × (unwrap_or count 0 ≤ 4096) }
    ensures { KeysRead text.now at k (ranges.old, keys.old, count) result (ranges.new, keys.new) }
{
    let row = count.unwrap_or(0);
    let (n, d) = parse_lists::some_rows(
        text,
        Ok(at),
        b"kf",
        1,
        Form::Float,
        1,
        keys,
        row * KEY_WIDTH,
    )?;
    if count.is_none() {
        return Ok((None, d));
    }
    if MOST_KEYS - row < n {
        return Ok((None, d));
    }
    table_rows::store(ranges, k * 2, &[row as i64, n as i64]);
    Ok((Some(row + n), d))
}

// The chunks of the channels up to the closing bracket of their bone, with ranges that are 0 and stay so for a channel that is left out.
fn channel_chunks(
    text: &[u8],
    at: usize,
    ranges: &mut [i64],
    keys: &mut [i64],
) -> Parsed<Option<usize>>
    requires { (ranges.old ≡ replicate 20 (pos 0)) × (length keys.old ≡ 8192) }
    ensures { ReachedBy text.now result (fields channel_kinds (lex_at text.now at)) (λ n gs. HeldBy gs ranges.new keys.new n) }
{
    let mut seen = [false; 10];
    let mut d = at;
    let mut left: usize = 10;
    let mut count = Some(0);
    loop {
        let (kind, inside) = parse_chunks::next_chunk(
            text,
            Ok(d),
            b"translate.x translate.y translate.z scale.x scale.y scale.z rotate.x rotate.y rotate.z roll",
            &[false; 10],
            &mut seen,
            left,
        )?;
        let Some(k) = kind else {
            return Ok((count, inside));
        };
        let (n, e) = channel_keys(text, inside, k, ranges, keys, count)?;
        count = n;
        d = e;
        left -= 1;
    }
}

// The channels of a bone up to its closing bracket: their keys to a table, in the order of the text, and the first row and the count
// of each channel's to the ranges, 0 and 0 of one that is left out; how many keys there are, none where there are too many. What the
// table holds past the last key is free.
pub fn channels(
    text: &[u8],
    at: usize,
    ranges: &mut [i64; 20],
    keys: &mut [i64; 8192],
) -> Parsed<Option<usize>>
    ensures { ReachedBy text.now result (fields channel_kinds (lex_at text.now at)) (λ n gs. HeldBy gs ranges.new keys.new n) }
{
    *ranges = [0; 20];
    channel_chunks(text, at, ranges, keys)
}
