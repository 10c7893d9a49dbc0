// Two lists of views put together in one walk, where they lie in bytes.
ghost use Rattle.std.specs.Prelude.{◌≡◌, ◌+◌, ◌*◌, ◌≤◌, length, slice_get};
ghost use Rattle.views.specs.Limits.{max_views};
ghost use Rattle.views.specs.Sizes.{view_size};
ghost use Rattle.wire.specs.Reader.{views_in};
ghost use Rattle.wire.specs.Merges.{Merges};

use crate::{NO_VIEW, reader};
use views::list::Views;
use views::{View, ViewId, limits, list, sizes};

// What the walk makes, and how many turns it took.
#[derive(Clone, Copy)]
pub struct Merged {
    pub views: Views,
    pub turns: usize,
}

// The view at place i of n views, none past the last.
fn standing(b: &[u8], from: usize, n: usize, i: usize) -> Option<View>
    requires { from + view_size * n ≤ length b.now }
    ensures { result ≡ slice_get (views_in b.now from n) i }
{
    if i < n {
        Some(reader::load_view(b, from + sizes::VIEW * i))
    } else {
        None
    }
}

// The views above the identifier of n views from a place on and m views elsewhere; of two with one identifier the
// first list's. Each turn deals with one identifier, whether or not its view stays, and neither place goes back.
pub fn merge(
    b: &[u8],
    from: usize,
    n: usize,
    c: &[u8],
    on: usize,
    m: usize,
    floor: ViewId,
) -> Merged
    requires { (from + view_size * n ≤ length b.now) × (n ≤ max_views)
        × (on + view_size * m ≤ length c.now) × (m ≤ max_views) }
    ensures { Merges (views_in b.now from n) (views_in c.now on m) floor.0 result }
{
    let mut at = [NO_VIEW; limits::VIEWS];
    let mut k = 0;
    let mut turns = 0;
    let mut i = 0;
    let mut j = 0;
    // A `while`, since neither place goes on by one at each turn.
    while let Some(next) = list::choose(standing(b, from, n, i), standing(c, on, m, j)) {
        let v = next.view;
        if floor < v.id {
            if k < limits::VIEWS {
                at[k] = v;
            }
            k += 1;
        }
        turns += 1;
        i += next.left;
        j += next.right;
    }
    let views = Views { count: k, at };
    Merged { views, turns }
}
