// Rule 11: an entry names a vertex that no earlier entry has named.
ghost use Rattle.std.specs.Prelude.{◌≡◌};
ghost use Rattle.bac6_owners.specs.Internal.Claims.{is_free, after_claim};

use table_columns::VertexRow;
use table_references::{is_none, is_row};

// Whether an entry names one of the first `points` vertices that is unclaimed; if so, the bone owns it.
pub fn claim(owners: &mut [i64], points: usize, v: VertexRow, bone: i64) -> bool
    ensures answer { result ≡ is_free points v.0 owners.old }
    ensures content { owners.new ≡ after_claim points bone v.0 owners.old }
{
    if !is_row(points.min(owners.len()), v.0) {
        return false;
    }
    let at = v.0 as usize;
    if !is_none(owners[at]) {
        return false;
    }
    owners[at] = bone;
    true
}
