// A figure's table that holds what its counts say.
ghost use Rattle.std.specs.Prelude.{◌≡◌, ◌<◌, ◌≤◌, MatchOption, length, false};
ghost use Rattle.table_figure.specs.Sections.{holds_figure};
ghost use Rattle.table_figure.specs.Internal.Found.{Found};
ghost use Rattle.player_spec.specs.Lookups.{face_at};

use table_counts::{FACE_WIDTH, FigureCounts};
use table_figure::{FigureSections, figure_in};

// The table, its counts and where its lists begin.
#[derive(Clone, Copy)]
pub struct Figure<'a> {
    pub table: &'a [i64],
    pub n: FigureCounts,
    pub sections: FigureSections,
    ghost found: { Found n table.now sections },
}

impl<'a> Figure<'a> {
    pub fn of(table: &'a [i64], n: FigureCounts) -> Option<Figure<'a>>
        ensures { MatchOption result (holds_figure n table.now ≡ false) (λ f. (f.n ≡ n) × (f.table.now ≡ table.now)) }
    {
        let sections = figure_in(table, n);
        if sections.end == 0 {
            return None;
        }
        Some(Figure { table, n, sections })
    }

    // A face's row.
    pub fn face(&self, face: usize) -> Option<&'a [i64]>
        ensures { MatchOption result (self.now.n.faces ≤ face) (λ row. (face < self.now.n.faces) × (length row.now ≡ 11) × (row.now ≡ face_at self.now.n self.now.table.now face)) }
    {
        if self.n.faces <= face {
            return None;
        }
        let table = self.table;
        let base = self.sections.faces + face * FACE_WIDTH;
        Some(&table[base..base + FACE_WIDTH])
    }
}
