// A number's decimal text.
ghost use Rattle.std.specs.Prelude.{◌≡◌};
ghost use Rattle.report_text.specs.Output.{output, appended};
ghost use Rattle.report_text.specs.Text.{numeral};

use crate::buffer::{append, has_room};

// Puts a number's decimal text after the first n bytes of buf.
pub fn append_number(buf: &mut [u8], n: usize, z: i64) -> usize
    ensures { output result buf.new ≡ appended (output n buf.old) (numeral z) }
{
    let mut digits = [0u8; 20];
    let k = io::decimal(signed::magnitude(z), &mut digits);
    if z < 0 {
        if !has_room(buf.len(), n, k + 1) {
            return n;
        }
        let at = append(buf, n, b"-");
        return append(buf, at, &digits[..k]);
    }
    append(buf, n, &digits[..k])
}
