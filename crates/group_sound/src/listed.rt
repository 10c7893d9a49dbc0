// Whether views are among those made, identifier and set. The views made are the first of the list, and they rise.
ghost use Rattle.std.specs.Prelude.{true, ◌≡◌, ◌+◌, ◌*◌, ◌≤◌, ◌<◌, length, get_or};
ghost use Rattle.views.specs.Sizes.{view_size};
ghost use Rattle.views.specs.Limits.{max_open};
ghost use Rattle.views.specs.Lists.{id_of, is_rising};
ghost use Rattle.wire.specs.Reader.{view_in, views_in};
ghost use Rattle.rules.specs.Sound.{listed};
ghost use Rattle.rules.specs.Member.{all};
ghost use Rattle.slots.specs.Slots.{slot_size, entry_in, slot_fits, entries_in, slots_fit};
ghost use Rattle.book_bytes.specs.Places.{book_size, opens_at};
ghost use Rattle.group_bytes.specs.Groups.{place_of};
ghost use Rattle.group_sound.specs.Parts.{views_known, info_known};

use views::{View, ViewId, sizes};
use wire::format;

// The view whose place is i is listed.
pub fn is_at(list: &[u8], made: u8, v: View, i: u8) -> bool
    requires { (view_size * made ≤ length list.now) × (is_rising (views_in list.now 0 made) ≡ true)
        × (i ≡ place_of (id_of v) (views_in list.now 0 made)) }
    ensures { result ≡ listed (views_in list.now 0 made) v }
{
    i < made && list[sizes::VIEW * i as usize + sizes::IDENTIFIER] == v.set
}

// The place of the view with the identifier. Nothing is sought if it is the view with the identifier w, whose place is
// i, as it often is.
pub fn place_near(list: &[u8], made: u8, id: ViewId, w: ViewId, i: u8) -> u8
    requires { (view_size * made ≤ length list.now) × (is_rising (views_in list.now 0 made) ≡ true)
        × (i ≡ place_of w.0 (views_in list.now 0 made)) }
    ensures { result ≡ place_of id.0 (views_in list.now 0 made) }
{
    if id.0 == w.0 {
        i
    } else {
        group_bytes::place(list, made, id)
    }
}

// The view at a place.
pub fn view_listed(list: &[u8], b: &[u8], made: u8, at: usize) -> bool
    requires { (view_size * made ≤ length list.now) × (at + view_size ≤ length b.now)
        × (is_rising (views_in list.now 0 made) ≡ true) }
    ensures { result ≡ listed (views_in list.now 0 made) (view_in b.now at) }
{
    let v = wire::reader::load_view(b, at);
    let i = group_bytes::place(list, made, v.id);
    is_at(list, made, v, i)
}

// The views from a place on, one or more, rise and each is listed: as both lists rise, one walk along the list meets
// them all.
pub fn views_known(list: &[u8], b: &[u8], made: u8, from: usize, count: usize) -> bool
    requires { (view_size * made ≤ length list.now) × (from + view_size * count ≤ length b.now)
        × (is_rising (views_in list.now 0 made) ≡ true) × (0 < count) }
    ensures { result ≡ views_known (views_in list.now 0 made) (views_in b.now from count) }
{
    let first = wire::reader::load_view(b, from);
    let mut j = group_bytes::place(list, made, first.id) as usize;
    let mut i = 0;
    // A for over the places of the list takes a tenth longer where a group is full.
    while i < count {
        if made as usize <= j {
            return false;
        }
        let v = wire::reader::load_view(b, from + sizes::VIEW * i);
        let w = wire::reader::load_view(list, sizes::VIEW * j);
        if v.id.0 <= w.id.0 {
            if v.id.0 != w.id.0 || v.set != w.set {
                return false;
            }
            i += 1;
        }
        j += 1;
    }
    true
}

// The open views of a book rise, and each is listed.
pub fn opens_known(list: &[u8], b: &[u8], made: u8) -> bool
    requires { (view_size * made ≤ length list.now) × (book_size ≤ length b.now)
        × (is_rising (views_in list.now 0 made) ≡ true) × (get_or b.now opens_at 0 ≤ max_open) }
    ensures { result ≡ views_known (views_in list.now 0 made)
        (views_in b.now (opens_at + 1) (get_or b.now opens_at 0)) }
{
    let opens = b[book_bytes::OPENS] as usize;
    opens == 0 || views_known(list, b, made, book_bytes::OPENS + 1, opens)
}

// The views of an entry, if it is an info.
pub fn info_known(list: &[u8], b: &[u8], made: u8, at: usize) -> bool
    requires { (view_size * made ≤ length list.now) × (at + slot_size ≤ length b.now)
        × (is_rising (views_in list.now 0 made) ≡ true) × (slot_fits b.now at ≡ true) }
    ensures { result ≡ info_known (views_in list.now 0 made) (entry_in b.now at) }
{
    if b[at + slots::KIND] == format::INFO {
        return views_known(
            list,
            b,
            made,
            at + slots::VIEWS,
            b[at + slots::COUNT] as usize,
        );
    }
    true
}

// The views of every info of a queue.
pub fn infos_known(list: &[u8], b: &[u8], made: u8, at: usize, count: usize) -> bool
    requires { (view_size * made ≤ length list.now) × (at + slot_size * count ≤ length b.now)
        × (is_rising (views_in list.now 0 made) ≡ true) × (slots_fit b.now at count ≡ true) }
    ensures { result ≡ all (info_known (views_in list.now 0 made)) (entries_in b.now at count) }
{
    (0..count).all(|i| info_known(list, b, made, at + slots::SLOT * i))
}
