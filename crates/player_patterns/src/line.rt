// One pattern line.
ghost use Rattle.std.specs.Prelude.{◌≡◌, [], ◌∷◌, ◌&&◌, leb, ℤ, pos, nat_abs};
ghost use Rattle.player_spec.specs.Deciding.{line_frame, applies};
ghost use Rattle.player_patterns.specs.Internal.Pass.{line_fine};

use table_references::is_row;
use tra4_tests::pattern_fits;

// Whether a line keeps its rule, its group is one of the figure's and its flag 0 or 1.
pub(crate) fn line_fine(total: i64, groups: usize, f: i64, g: i64, flag: i64) -> bool
    ensures { result ≡ line_fine total groups (f ∷ g ∷ flag ∷ []) }
{
    pattern_fits(total, f, g) && is_row(groups, g) && is_row(2, flag)
}

// Whether a line decides over one at the frame `best`: it is of the group, not after `at`, and not before `best`.
pub(crate) fn replaces(f: i64, g: i64, group: usize, at: usize, best: usize) -> bool
    requires { (f ≡ pos (nat_abs f)) × (g ≡ pos (nat_abs g)) }
    ensures { (flag : ℤ) → result ≡ (applies group at (f ∷ g ∷ flag ∷ []) && leb best (line_frame (f ∷ g ∷ flag ∷ []))) }
{
    let frame = f as usize;
    g as usize == group && frame <= at && best <= frame
}
