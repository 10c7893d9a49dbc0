// A view's order, where it lies by columns: what the short columns say of every entry in one loop, then the infos.
ghost use Rattle.std.specs.Prelude.{cond, true, ◌≡◌, ◌+◌, ◌*◌, ◌≤◌, ◌<◌, length, get_or};
ghost use Rattle.views.specs.Sizes.{view_size};
ghost use Rattle.views.specs.Limits.{max_ordered};
ghost use Rattle.views.specs.Lists.{is_rising};
ghost use Rattle.wire.specs.Reader.{views_in};
ghost use Rattle.rules.specs.Member.{every};
ghost use Rattle.slots.specs.Columns.{order_size};
ghost use Rattle.group_sound.specs.Parts.{list_sound, order_sound};
ghost use Rattle.group_sound.specs.OrderParts.{head_fits, heads_fit, infos_within, infos_known};

use views::limits;
use wire::format;

// What the short columns of an order say: whether its heads fit, and how many entries there are up to its last info.
#[derive(Clone, Copy)]
struct Seen {
    fit: bool,
    infos: usize,
}

// 0 where the head of an entry fits: a member's, of known kind, a told's count within its limits; else 1. It is asked
// without a jump, so that the loop over the heads goes 16 at a time.
fn fault(sender: u8, kind: u8, count: u8, n: u8) -> u8
    ensures { result ≡ cond (head_fits n sender kind count) 0 1 }
{
    let told = if kind == format::TOLD { count } else { 1 };
    let foreign = if n <= sender { 1 } else { 0 };
    let below = if kind < format::CLIENT { 1 } else { foreign };
    let above = if format::TOLD < kind { 1 } else { below };
    let few = if told < 1 { 1 } else { above };
    if limits::ORDERED < told { 1 } else { few }
}

// The heads of the first entries of the order at c.
fn heads(q: &[u8], c: usize, count: u8, n: u8) -> Seen
    requires { (c + order_size ≤ length q.now) × (count ≤ max_ordered) }
    ensures { (result.fit ≡ every count (heads_fit n q.now c))
        × (result.infos ≡ infos_within q.now c count) }
{
    let mut worst: u8 = 0;
    let mut infos: u8 = 0;
    for i in 0..count as usize {
        let kind = q[c + slots::order::KINDS + i];
        let wrong = fault(
            q[c + slots::order::SENDERS + i],
            kind,
            q[c + slots::order::COUNTS + i],
            n,
        );
        worst = worst.max(wrong);
        let info = if kind == format::INFO {
            (i + 1) as u8
        } else {
            0
        };
        infos = infos.max(info);
    }
    Seen {
        fit: worst == 0,
        infos: infos as usize,
    }
}

// Entry k of the order at c, if it is an info: it has 1 to 32 views, which rise and are listed. Most have one.
fn info_known(list: &[u8], q: &[u8], made: u8, c: usize, k: usize) -> bool
    requires { (view_size * made ≤ length list.now) × (c + order_size ≤ length q.now) × (k < max_ordered)
        × (is_rising (views_in list.now 0 made) ≡ true) }
    ensures { result ≡ infos_known (views_in list.now 0 made) q.now c k }
{
    if q[c + slots::order::KINDS + k] != format::INFO {
        return true;
    }
    let n = q[c + slots::order::COUNTS + k] as usize;
    let at = c + slots::order::VIEWS + slots::order::CARRIED * k;
    if n == 1 {
        return crate::listed::view_listed(list, q, made, at);
    }
    format::views_allowed(format::INFO, n) && crate::listed::views_known(list, q, made, at, n)
}

// The infos among the first entries of the order at c.
fn infos_known(list: &[u8], q: &[u8], made: u8, c: usize, count: usize) -> bool
    requires { (view_size * made ≤ length list.now) × (c + order_size ≤ length q.now) × (count ≤ max_ordered)
        × (is_rising (views_in list.now 0 made) ≡ true) }
    ensures { result ≡ every count (infos_known (views_in list.now 0 made) q.now c) }
{
    (0..count).all(|i| info_known(list, q, made, c, i))
}

// The order with its count at c.
pub fn order_sound(list: &[u8], q: &[u8], made: u8, c: usize, n: u8) -> bool
    requires { (view_size * made ≤ length list.now) × (c + order_size ≤ length q.now)
        × (list_sound n (views_in list.now 0 made) ≡ true) }
    ensures { result ≡ order_sound (views_in list.now 0 made) n q.now c }
{
    let count = q[c];
    if limits::ORDERED < count {
        return false;
    }
    let h = heads(q, c, count, n);
    h.fit && infos_known(list, q, made, c, h.infos)
}
