// The queues of the views made: each view's order, and what waits in it for each member.
ghost use Rattle.std.specs.Prelude.{true, ◌≡◌, ◌+◌, ◌*◌, ◌≤◌, length};
ghost use Rattle.views.specs.Sizes.{view_size};
ghost use Rattle.views.specs.Limits.{max_members};
ghost use Rattle.views.specs.Lists.{is_rising};
ghost use Rattle.views.specs.Sets.{both};
ghost use Rattle.wire.specs.Reader.{views_in};
ghost use Rattle.rules.specs.Member.{every};
ghost use Rattle.slots.specs.Slots.{slot_size, entry_in, slot_fits};
ghost use Rattle.group_bytes.specs.Places.{order_at, waiting_size};
ghost use Rattle.group_sound.specs.Parts.{list_sound, info_known, entry_known, entries_known, queue_sound};
ghost use Rattle.group_sound.specs.Parts.{waiting_sound, table_sound};

use views::limits;
use wire::format;

// The slot at a place, of any sender: of known kind, and an info's views rise and are listed.
fn slot_known(list: &[u8], q: &[u8], made: u8, at: usize) -> bool
    requires { (view_size * made ≤ length list.now) × (at + slot_size ≤ length q.now)
        × (is_rising (views_in list.now 0 made) ≡ true) }
    ensures { result ≡ both (slot_fits q.now at)
        (info_known (views_in list.now 0 made) (entry_in q.now at)) }
{
    slots::slot_fits(q, at) && crate::listed::info_known(list, q, made, at)
}

// The slot at a place: of known kind, its entry sound, its views listed. Most entries are client messages, of which the
// sender is asked, and tolds, of which the count is asked too. The sets of listed views were tested with the list.
fn entry_known(list: &[u8], q: &[u8], made: u8, at: usize, n: u8) -> bool
    requires { (view_size * made ≤ length list.now) × (at + slot_size ≤ length q.now)
        × (list_sound n (views_in list.now 0 made) ≡ true) }
    ensures { result ≡ entry_known (views_in list.now 0 made) n q.now at }
{
    if n <= q[at] {
        return false;
    }
    let kind = q[at + slots::KIND];
    if kind == format::CLIENT {
        return true;
    }
    if kind == format::TOLD {
        return wire::in_bytes::told_fits(q, at + slots::NUMBER);
    }
    slot_known(list, q, made, at)
}

// The slots of a queue.
fn entries_known(list: &[u8], q: &[u8], made: u8, at: usize, count: usize, n: u8) -> bool
    requires { (view_size * made ≤ length list.now) × (at + slot_size * count ≤ length q.now)
        × (list_sound n (views_in list.now 0 made) ≡ true) }
    ensures { result ≡ entries_known (views_in list.now 0 made) n q.now at count }
{
    (0..count).all(|i| entry_known(list, q, made, at + slots::SLOT * i, n))
}

// What waits for a member, with its count at a place.
fn queue_sound(list: &[u8], q: &[u8], made: u8, at: usize, n: u8) -> bool
    requires { (view_size * made ≤ length list.now) × (at + waiting_size ≤ length q.now)
        × (list_sound n (views_in list.now 0 made) ≡ true) }
    ensures { result ≡ queue_sound (views_in list.now 0 made) n q.now at }
{
    q[at] <= limits::WAITING && entries_known(list, q, made, at + 1, q[at] as usize, n)
}

// What waits for n members in the view at place i of the list.
fn waiting_sound(list: &[u8], q: &[u8], made: u8, i: usize, n: u8) -> bool
    requires { (view_size * made ≤ length list.now) × (order_at (i + 1) ≤ length q.now) × (n ≤ max_members)
        × (list_sound n (views_in list.now 0 made) ≡ true) }
    ensures { result ≡ waiting_sound (views_in list.now 0 made) n q.now i }
{
    let from = group_bytes::HEAD + group_bytes::TABLE * i + group_bytes::ORDER;
    (0..n).all(|p| queue_sound(list, q, made, from + group_bytes::WAITING * p as usize, n))
}

// The queues of the view at place i of the list.
fn table_sound(list: &[u8], q: &[u8], made: u8, i: usize, n: u8) -> bool
    requires { (view_size * made ≤ length list.now) × (order_at (i + 1) ≤ length q.now) × (n ≤ max_members)
        × (list_sound n (views_in list.now 0 made) ≡ true) }
    ensures { result ≡ table_sound (views_in list.now 0 made) n q.now i }
{
    let at = group_bytes::HEAD + group_bytes::TABLE * i;
    crate::orders::order_sound(list, q, made, at, n) && waiting_sound(list, q, made, i, n)
}

// The queues of every view made.
pub fn tables_sound(list: &[u8], q: &[u8], made: u8, n: u8) -> bool
    requires { (view_size * made ≤ length list.now) × (order_at made ≤ length q.now) × (n ≤ max_members)
        × (list_sound n (views_in list.now 0 made) ≡ true) }
    ensures { result ≡ every made (table_sound (views_in list.now 0 made) n q.now) }
{
    (0..made as usize).all(|i| table_sound(list, q, made, i, n))
}
