// What is asked of views and of a told's count where they lie in bytes: nothing is built for it.
ghost use Rattle.std.specs.Prelude.{◌≡◌, ◌+◌, ◌*◌, ◌≤◌, leb, length};
ghost use Rattle.numbers.specs.Number.{get};
ghost use Rattle.views.specs.Limits.{max_ordered};
ghost use Rattle.views.specs.Sizes.{view_size, number_size};
ghost use Rattle.views.specs.Sets.{both};
ghost use Rattle.views.specs.Lists.{rises_above, is_rising, find_of};
ghost use Rattle.wire.specs.Format.{some_empty};
ghost use Rattle.wire.specs.Reader.{views_in};

use crate::reader;
use views::{View, ViewId, limits, sizes};

// A told's count is 1 to 128, by the two halves of its eight bytes: the high one is 0. Two halves of four bytes are
// read faster than all eight.
pub fn told_fits(b: &[u8], at: usize) -> bool
    requires { at + number_size ≤ length b.now }
    ensures { result ≡ both (leb 1 (get b.now at number_size))
        (leb (get b.now at number_size) max_ordered) }
{
    numbers::get_number(b, at, 4) == 0
        && (1..=limits::ORDERED as u64).contains(&numbers::get_number(b, at + 4, 4))
}

// Some set of the views from a place on is empty.
pub fn some_empty(b: &[u8], from: usize, count: usize) -> bool
    requires { from + view_size * count ≤ length b.now }
    ensures { result ≡ some_empty (views_in b.now from count) }
{
    // A `for`, since `any` over the places is slower.
    for i in 0..count {
        if b[from + sizes::VIEW * i + sizes::IDENTIFIER] == 0 {
            return true;
        }
    }
    false
}

// The identifiers of the views rise, the first from above g.
pub fn rise_above(b: &[u8], from: usize, count: usize, g: ViewId) -> bool
    requires { from + view_size * count ≤ length b.now }
    ensures { result ≡ rises_above g.0 (views_in b.now from count) }
{
    let mut last = g;
    for i in 0..count {
        let v = reader::load_view(b, from + sizes::VIEW * i);
        if v.id <= last {
            return false;
        }
        last = v.id;
    }
    true
}

// Each identifier is below the next.
pub fn rising(b: &[u8], from: usize, count: usize) -> bool
    requires { from + view_size * count ≤ length b.now }
    ensures { result ≡ is_rising (views_in b.now from count) }
{
    if count == 0 {
        return true;
    }
    let first = reader::load_view(b, from);
    rise_above(b, from + sizes::VIEW, count - 1, first.id)
}

// The view with the identifier.
pub fn find(b: &[u8], from: usize, count: usize, id: ViewId) -> Option<View>
    requires { from + view_size * count ≤ length b.now }
    ensures { result ≡ find_of id.0 (views_in b.now from count) }
{
    for i in 0..count {
        let v = reader::load_view(b, from + sizes::VIEW * i);
        if v.id == id {
            return Some(v);
        }
    }
    None
}
