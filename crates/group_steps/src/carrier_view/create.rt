// Create: the carrier makes a view. It is the next of the list, and nothing is in its queues.
ghost use Rattle.std.specs.Prelude.{◌≡◌, ◌≤◌, ◌<◌, ◌+◌, ◌*◌, set, length, true};
ghost use Rattle.views.specs.Limits.{max_views};
ghost use Rattle.views.specs.Sizes.{view_size};
ghost use Rattle.wire.specs.Reader.{views_in};
ghost use Rattle.wire.specs.Writer.{store_view};
ghost use Rattle.group_bytes.specs.Places.{table_size, order_at, made_at};
ghost use Rattle.group_bytes.specs.Moves.{table_cleared};
ghost use Rattle.group_bytes.specs.Groups.{ranges_sound};
ghost use Rattle.group_steps.specs.CarrierParts.{all_below, Created};

use views::refusal::{Refusal, Verdict};
use views::{Member, View, ViewId, limits, sizes};

// The identifier is above those of the first n views of the list.
fn above(list: &[u8], n: u8, id: ViewId) -> bool
    requires { view_size * n ≤ length list.now }
    ensures { result ≡ all_below id.0 (views_in list.now 0 n) }
{
    (0..n).all(|i| {
        let other = numbers::get_number(list, group_bytes::VIEW * i as usize, sizes::IDENTIFIER);
        other < id.0 as u64
    })
}

// Every queue of the view at a place is empty.
fn clear(queues: &mut [u8], i: u8)
    requires { (i ≤ max_views) × (order_at i + table_size ≤ length queues.old) }
    ensures { queues.new ≡ table_cleared queues.old i }
{
    queues[group_bytes::order_at(i)] = 0;
    for p in 0..limits::MEMBERS {
        queues[group_bytes::waiting_at(i, Member(p))] = 0;
    }
}

// The view is the next of the list, with its queues empty.
fn make(list: &mut [u8], queues: &mut [u8], made: u8, v: View)
    requires { (made < max_views) × (view_size * made + view_size ≤ length list.old)
        × (order_at made + table_size ≤ length queues.old) }
    ensures { (list.new ≡ store_view list.old (view_size * made) v)
        × (queues.new ≡ set (table_cleared queues.old made) made_at (made + 1)) }
{
    wire::writer::store_view(list, group_bytes::VIEW * (made as usize), v);
    clear(queues, made);
    queues[group_bytes::MADE] = made + 1;
}

// The carrier makes the view of an identifier and a set.
pub fn create(list: &mut [u8], all: &[u8], queues: &mut [u8], id: ViewId, set: u8) -> Verdict
    requires { ranges_sound (record { list = list.now; books = all.now; queues = queues.old }) ≡ true }
    ensures { Created
        (record { list = list.entry.now; books = all.now; queues = queues.old }) id.0 set
        list.exit.now queues.new result }
{
    if !sets::fits(all[book_bytes::MEMBERS], set) {
        return Err(Refusal::SetUnfit);
    }
    let made = queues[group_bytes::MADE];
    if !above(list, made, id) {
        return Err(Refusal::IdentifierNotAbove);
    }
    if list.len() / group_bytes::VIEW <= made as usize {
        return Err(Refusal::ListFull);
    }
    let v = View { id, set };
    make(list, queues, made, v);
    Ok(())
}
