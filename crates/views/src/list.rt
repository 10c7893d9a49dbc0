// Lists of views by value, rising by identifier: a count and 32 places. A list too long for its places keeps its count
// and the first 32 views, so whoever makes one compares the count with its own limit.
ghost use Rattle.std.specs.Prelude.{◌≡◌, ◌<◌, min};
ghost use Rattle.views.specs.Limits.{max_views};
ghost use Rattle.views.specs.Lists.{placed, is_rising, list_of, find_of, insert_of, above_of};
ghost use Rattle.views.specs.ChoiceParts.{choice_of};

use crate::{View, ViewId, limits};

#[derive(Clone, Copy)]
pub struct Views {
    pub count: usize,
    pub at: [View; limits::VIEWS],
}

// The next view of two lists, and how many of each list it takes.
#[derive(Clone, Copy)]
pub struct Choice {
    pub view: View,
    pub left: usize,
    pub right: usize,
}

// What an unused place holds.
const NONE: View = View {
    id: ViewId(0),
    set: 0,
};

// How many places a count makes use of.
pub fn used(count: usize) -> usize
    ensures { result ≡ min count max_views }
{
    // min is slower here: the loops over the used places then lose what the compiler knows of their bound.
    if count < limits::VIEWS {
        count
    } else {
        limits::VIEWS
    }
}

// Each identifier is below the next.
pub fn rising(list: Views) -> bool
    ensures { result ≡ is_rising (list_of list) }
{
    list.at[..used(list.count)].is_sorted_by(|v, w| v.id < w.id)
}

// The view with the identifier.
pub fn find(list: Views, id: ViewId) -> Option<View>
    ensures { result ≡ find_of id.0 (list_of list) }
{
    list.at[..used(list.count)]
        .iter()
        .find(|v| v.id == id)
        .copied()
}

// The next view of two lists that stand at x and y, none where neither list has one.
pub fn choose(x: Option<View>, y: Option<View>) -> Option<Choice>
    ensures { result ≡ choice_of x y }
{
    let (view, left, right) = match (x, y) {
        (None, None) => return None,
        (None, Some(y)) => (y, 0, 1),
        (Some(x), None) => (x, 1, 0),
        (Some(x), Some(y)) if y.id < x.id => (y, 0, 1),
        (Some(x), Some(y)) if x.id == y.id => (x, 1, 1),
        (Some(x), Some(_)) => (x, 1, 0),
    };
    Some(Choice { view, left, right })
}

// The list with a view in its place, unless its identifier is there already.
pub fn insert(list: Views, v: View) -> Views
    ensures { result ≡ placed (insert_of v (list_of list)) }
{
    let mut at = [NONE; limits::VIEWS];
    let mut k = 0;
    let mut ahead = true;
    for w in &list.at[..used(list.count)] {
        if ahead && v.id <= w.id {
            ahead = false;
            if v.id < w.id {
                at[k] = v;
                k += 1;
            }
        }
        if k < limits::VIEWS {
            at[k] = *w;
        }
        k += 1;
    }
    if ahead {
        if k < limits::VIEWS {
            at[k] = v;
        }
        k += 1;
    }
    Views { count: k, at }
}

// Only the views above the identifier.
pub fn prune(list: Views, floor: ViewId) -> Views
    ensures { result ≡ placed (above_of floor.0 (list_of list)) }
{
    let mut at = [NONE; limits::VIEWS];
    let mut k = 0;
    for v in &list.at[..used(list.count)] {
        if floor < v.id {
            at[k] = *v;
            k += 1;
        }
    }
    Views { count: k, at }
}
