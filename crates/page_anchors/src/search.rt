//! Finds an id among ids in ascending order.
ghost use Rattle.std.specs.Prelude.{◌≡◌};
ghost use Rattle.std.specs.Cmp.Lexicographic.{slice_cmp};
ghost use Rattle.std.specs.Ordering.{nat_cmp};
ghost use Rattle.page_anchors.specs.Indicated.{has_id, DoAscend};

use crate::ids::Ids;
use std::cmp::Ordering;

/// Whether one of the ids is the text.
#[tactic(auto, using(crate::proofs::Searched::found_at))]
pub fn has_id(ids: &Ids, text: &[u8]) -> bool
    ensures { DoAscend ids.now → result ≡ has_id ids.now text.now }
{
    let mut low = 0;
    let mut high = ids.len();
    'halves: while low < high {
        let middle = low + (high - low) / 2;
        let found = order(ids.id(middle), text);
        if found.is_eq() {
            return true;
        }
        if found.is_lt() {
            low = middle + 1;
        } else {
            high = middle;
        }
    }
    false
}

/// Compares an id with a text, byte by byte. If one begins with the other, the shorter one is less.
fn order(id: &[u8], text: &[u8]) -> Ordering
    ensures { result ≡ slice_cmp nat_cmp id.now text.now }
{
    id.cmp(text)
}
