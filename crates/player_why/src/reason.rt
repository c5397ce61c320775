// The reason that a face is shown or hidden for, by its corners and by its group's line.
ghost use Rattle.std.specs.Prelude.{◌≡◌};
ghost use Rattle.player_patterns.specs.Internal.Answers.{line_told};
ghost use Rattle.player_spec.specs.Reasons.{corner_first};
ghost use Rattle.player_why.specs.Answers.{reason_named};
ghost use Rattle.player_why.specs.Internal.Rows.{corner_told, line_named};

use player_patterns::Line;

// Shown; hidden by the first corner without a bone, since the group has no line by the frame, or by the line in a row.
#[derive(Clone, Copy, PartialEq, Eq)]
pub enum Reason {
    Shown,
    Corner(usize),
    Unset,
    Line(usize),
}

// A group is shown by the flag of its deciding line, and hidden by that line or without one.
pub(crate) fn by_line(line: Option<Line>) -> Reason
    ensures { reason_named result ≡ line_named (line_told line) }
{
    match line {
        None => Reason::Unset,
        Some(l) => {
            if l.shown {
                Reason::Shown
            } else {
                Reason::Line(l.row)
            }
        }
    }
}

// A corner without a bone comes before what the group says.
#[tactic(auto, unfolding(player_spec::specs::Reasons::corner_first))]
pub(crate) fn first_reason(corner: Option<usize>, group: Reason) -> Reason
    ensures { reason_named result ≡ corner_first (corner_told corner) (reason_named group) }
{
    match corner {
        Some(k) => Reason::Corner(k),
        None => group,
    }
}
