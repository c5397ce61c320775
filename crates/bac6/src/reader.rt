// Reads a figure's text into a lent table.
ghost use Rattle.std.specs.Prelude.{◌≡◌, length};
ghost use Rattle.refusal.specs.Internal.Answers.{refusal};
ghost use Rattle.bac6_bones.specs.Internal.Into.{fault_of};
ghost use Rattle.bac6_text.specs.Answer.{figure_answer, table_after};
ghost use Rattle.bac6.specs.Answers.{answer_of};
ghost use Rattle.bac6.specs.Internal.Checks.{Held};
ghost use Rattle.bac6.specs.Internal.Answers.{RowsAnswered};

use crate::setting::{FigureAnswer, refused, total_of};
use bac6_shape::Parsed;
use refusal::Refusal;
use text_check::Format;

// The answer is document 01's, and the table holds the layout from its start on; or, where refused, what it held.
// Each list is read into room for its most rows, and the lent table is written only once all is checked.
pub fn read(text: &[u8], table: &mut [i64]) -> FigureAnswer
    ensures answer { result ≡ answer_of (figure_answer text.now (length table.old)) }
    ensures content { table.new ≡ table_after text.now table.old }
{
    if let Err(e) = text_check::check_text(text, Format::Bac) {
        return refused(e);
    }
    let mut rows = [0i64; 34912];
    let mut owners = [-1i64; 2048];
    let mut names = [0i64; 64];
    match bac6_shape::parse(text, &mut rows, &mut owners, &mut names) {
        Ok((p, _)) => read_rows(table, p, &mut rows, &owners, &names),
        Err(e) => refused(e),
    }
}

// What reading the vertex entries found of rule 11.
fn claims_of(p: Parsed) -> Result<(), Refusal>
    ensures { refusal result ≡ fault_of p.fault }
{
    match p.fault {
        Some(row) => Err(Refusal {
            number: 11,
            place: row,
        }),
        None => Ok(()),
    }
}

// The rules run over the rows, and the lists are laid in the lent table where all of them hold and it is long enough (else 17).
fn read_rows(
    table: &mut [i64],
    p: Parsed,
    rows: &mut [i64],
    owners: &[i64],
    names: &[i64],
) -> FigureAnswer
    requires { Held p rows.old owners.now names.now }
    ensures { RowsAnswered p rows.old owners.now names.now table.old table.new result }
{
    if let Err(e) = bac6_check::first_fault(p.counts, claims_of(p), rows) {
        return refused(e);
    }
    let total = total_of(p.counts);
    if table.len() < total {
        return refused(Refusal {
            number: 17,
            place: total,
        });
    }
    let name = [p.place as i64, p.length as i64];
    bac6_layout::lay(table, p.counts, &name, rows, owners, names);
    FigureAnswer {
        refusal: 0,
        place: 0,
        file: 0,
        total,
        counts: p.counts,
    }
}
