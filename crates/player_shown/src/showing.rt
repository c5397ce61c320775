// Whether a face is shown at a frame.
ghost use Rattle.std.specs.Prelude.{◌≡◌};
ghost use Rattle.player_spec.specs.Lookups.{shown_in};
ghost use Rattle.player_spec.specs.Answers.{numbered};
ghost use Rattle.player_shown.specs.Answers.{showed};

use player_why::{Reason, why};
use table_counts::{FigureCounts, MovementCounts};

// Whether a face is shown at a frame, in any tables with any counts: it is where the reason says so. None is refusal 21.
pub fn shown(
    table: &[i64],
    n: FigureCounts,
    moves: &[i64],
    m: MovementCounts,
    face: usize,
    at: usize,
) -> Option<bool>
    ensures { showed result ≡ numbered (shown_in n table.now m moves.now face at) }
{
    let reason = why(table, n, moves, m, face, at)?;
    Some(matches!(reason, Reason::Shown))
}
