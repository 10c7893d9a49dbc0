// A list of views that the host lends as a slice of records: one view of it read or put, the whole list by value, and a
// list laid afresh.
ghost use Rattle.std.specs.Prelude.{◌≡◌, ◌-◌, get_or, set};
ghost use Rattle.views.specs.Lists.{no_view, placed};
ghost use Rattle.views.specs.Limits.{max_views};
ghost use Rattle.group_listed.specs.SliceParts.{laid};

use views::list::Views;
use views::{View, ViewId, limits};

// No view, as an unused place holds it.
pub const NONE: View = View {
    id: ViewId(0),
    set: 0,
};

// The view at a place of the list, none past its end.
pub fn view_or(list: &[View], i: usize) -> View
    ensures { result ≡ get_or list.now i no_view }
{
    list.get(i).copied().unwrap_or(NONE)
}

// The view is put at a place of the list; past its end nothing happens.
pub fn put(list: &mut [View], i: usize, v: View)
    ensures { list.new ≡ set list.old i v }
{
    if i < list.len() {
        list[i] = v;
    }
}

// The whole list by value: its length, and its first 32 views.
pub fn listed(list: &[View]) -> Views
    ensures { result ≡ placed list.now }
{
    let n = list.len().min(limits::VIEWS);
    let mut at = [NONE; limits::VIEWS];
    at[..n].copy_from_slice(&list[..n]);
    Views {
        count: list.len(),
        at,
    }
}

// From a place on holds the view, and after it none.
pub fn lay(list: &mut [View], i: usize, v: View)
    ensures { list.new ≡ laid (max_views - i) list.old i v }
{
    let mut next = v;
    for j in i..limits::VIEWS {
        put(list, j, next);
        next = NONE;
    }
}
