// A figure's answer.
ghost use Rattle.std.specs.Prelude.{◌≡◌};
ghost use Rattle.bac6.specs.Internal.Places.{Within, total_of};
ghost use Rattle.bac6.specs.Answers.{refused_with};

use refusal::Refusal;
use table_counts::{FigureCounts, no_figure};

// A refusal's number, place and file; or the total and how many rows each list has. All else is 0.
#[derive(Clone, Copy)]
pub struct FigureAnswer {
    pub refusal: usize,
    pub place: usize,
    pub file: usize,
    pub total: usize,
    pub counts: FigureCounts,
}

pub(crate) fn refused(e: Refusal) -> FigureAnswer
    ensures { result ≡ refused_with e.number e.place }
{
    FigureAnswer {
        refusal: usize::from(e.number),
        place: e.place,
        file: 0,
        total: 0,
        counts: no_figure(),
    }
}

// How many numbers the layout has, by where the rows end in a table for the most of each list.
pub(crate) fn total_of(n: FigureCounts) -> usize
    requires { Within n }
    ensures { result ≡ total_of n }
{
    let e = bac6_layout::row_ends(n, 34912);
    2 + e.faces + n.points + n.groups * 2
}
