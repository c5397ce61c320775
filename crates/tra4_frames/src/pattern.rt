// Rule 16: the pattern lines, in any order.
ghost use Rattle.std.specs.Prelude.{◌≡◌, ◌*◌, ◌≤◌, length};
ghost use Rattle.refusal.specs.Internal.Answers.{refusal};
ghost use Rattle.refusal.specs.FirstBad.{first_bad};
ghost use Rattle.tra4_text.specs.Rules.{pattern_fine, has_start, patterns_fault};
ghost use Rattle.table_columns.specs.Parts.{rows_of};

use refusal::Refusal;
use table_counts::PATTERN_WIDTH;
use tra4_tests::pattern_fits;

// The fault of `count` rows of 3 under rule 16; a row that is not whole is not looked at.
pub fn patterns_fault(total: i64, patterns: &[i64], count: usize) -> Result<(), Refusal>
    ensures { refusal result ≡ patterns_fault total (rows_of 3 count patterns.now) }
{
    let rows = count.min(patterns.len() / PATTERN_WIDTH);
    if rows != 0 && !has_start(patterns, rows) {
        return Err(Refusal {
            number: 16,
            place: 0,
        });
    }
    lines_fault(total, patterns, rows)
}

// Whether a line has frame 0.
fn has_start(patterns: &[i64], rows: usize) -> bool
    requires { rows * 3 ≤ length patterns.now }
    ensures { result ≡ has_start (rows_of 3 rows patterns.now) }
{
    for row in 0..rows {
        if patterns[row * PATTERN_WIDTH] == 0 {
            return true;
        }
    }
    false
}

// The first line that breaks its own rule.
fn lines_fault(total: i64, patterns: &[i64], rows: usize) -> Result<(), Refusal>
    requires { rows * 3 ≤ length patterns.now }
    ensures { refusal result ≡ first_bad 16 (pattern_fine total) 0 (rows_of 3 rows patterns.now) }
{
    for row in 0..rows {
        let base = row * PATTERN_WIDTH;
        if !pattern_fits(total, patterns[base], patterns[base + 1]) {
            return Err(Refusal {
                number: 16,
                place: row,
            });
        }
    }
    Ok(())
}
