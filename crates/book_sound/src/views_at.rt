// Views where they lie in bytes, five bytes each, tested in place: no list is copied for a test.
ghost use Rattle.std.specs.Prelude.{◌≡◌, ◌+◌, ◌*◌, ◌≤◌, length};
ghost use Rattle.views.specs.Sizes.{view_size};
ghost use Rattle.views.specs.Lists.{is_rising};
ghost use Rattle.views.specs.Sets.{both};
ghost use Rattle.wire.specs.Reader.{views_in};
ghost use Rattle.rules.specs.Sound.{set_fits};
ghost use Rattle.rules.specs.Member.{all};

use views::{View, sizes};

// A view's set fits n members.
pub fn set_fits(n: u8, v: View) -> bool
    ensures { result ≡ set_fits n v }
{
    sets::fits(n, v.set)
}

// Every set of the views from a place on fits.
pub fn all_fit(b: &[u8], from: usize, count: usize, n: u8) -> bool
    requires { from + view_size * count ≤ length b.now }
    ensures { result ≡ all (set_fits n) (views_in b.now from count) }
{
    (0..count).all(|i| sets::fits(n, b[from + sizes::VIEW * i + sizes::IDENTIFIER]))
}

// Every set fits, and the identifiers rise.
pub fn sound(b: &[u8], from: usize, count: usize, n: u8) -> bool
    requires { from + view_size * count ≤ length b.now }
    ensures { result ≡ both (all (set_fits n) (views_in b.now from count))
        (is_rising (views_in b.now from count)) }
{
    all_fit(b, from, count, n) && wire::in_bytes::rising(b, from, count)
}
