// Which attempted views does a set cross, and of which does it hold a majority? These are the marked views of a group
// that a test picks, newest first. And the newest marked view before an identifier. Nothing of the group changes.
#![tactic(auto)]

ghost use Rattle.std.specs.Prelude.{true, cond, ◌≡◌, ◌+◌, ◌*◌, ◌≤◌, ◌<◌, length};
ghost use Rattle.numbers.specs.Number.{get, put};
ghost use Rattle.views.specs.Limits.{max_views};
ghost use Rattle.views.specs.Sizes.{view_size, identifier_size};
ghost use Rattle.group_bytes.specs.Groups.{ranges, ranges_sound};
ghost use Rattle.group_bytes.specs.Crossing.{newest_in};
ghost use Rattle.group_crossing.specs.Queries.{is_wanted, store_ids, Answered};
ghost use Rattle.group_crossing.specs.QueryParts.{pick_at, ids_below, earlier_at, last_below};

use views::refusal::Refusal;
use views::{View, ViewId, sizes};
use wire::reader;

// The set holds a majority of the view, or shares a member with it. The flag comes down to this one test, since a test
// that is passed as a closure needs a contract at each function that it goes through, which names the flag again.
fn wanted(hold: bool, set: u8, v: View) -> bool
    ensures { result ≡ is_wanted hold set v }
{
    if hold {
        sets::majority(set, v.set)
    } else {
        !sets::empty(sets::common(set, v.set))
    }
}

// The view at a place is marked, and the test picks it.
fn picks(list: &[u8], marks: u64, hold: bool, set: u8, i: usize) -> bool
    requires { (view_size * i + view_size ≤ length list.now) × (i < max_views) }
    ensures { result ≡ pick_at list.now marks hold set i }
{
    (marks >> i) % 2 == 1 && wanted(hold, set, reader::load_view(list, group_bytes::VIEW * i))
}

// How many of the first n views of the list are picked.
fn count(list: &[u8], marks: u64, hold: bool, set: u8, n: usize) -> usize
    requires { (view_size * n ≤ length list.now) × (n ≤ max_views) }
    ensures { result
        ≡ length (ids_below list.now (pick_at list.now marks hold set) n) }
{
    let mut k = 0;
    for i in 0..n {
        if picks(list, marks, hold, set, i) {
            k += 1;
        }
    }
    k
}

// Stores the identifiers of the views picked among the first n of the list, the last first.
fn lay(list: &[u8], marks: u64, hold: bool, set: u8, n: usize, out: &mut [u8])
    requires { (view_size * n ≤ length list.now) × (n ≤ max_views)
        × (identifier_size * length (ids_below list.now (pick_at list.now marks hold set) n) ≤ length out.old) }
    ensures { out.new ≡ store_ids out.old 0
        (ids_below list.now (pick_at list.now marks hold set) n) }
{
    let mut at = 0;
    for i in (0..n).rev() {
        if picks(list, marks, hold, set, i) {
            let id = numbers::get_number(list, group_bytes::VIEW * i, sizes::IDENTIFIER);
            numbers::put_number(out, at, sizes::IDENTIFIER, id);
            at += sizes::IDENTIFIER;
        }
    }
}

// Finds the attempted views with which a set shares a member, or of which it holds a majority: their identifiers go to
// the front of the buffer, newest first. It is refused with 4, 7 or 46. The views are counted before any is stored, so
// that a refusal leaves the buffer.
pub fn query(
    list: &[u8],
    books: &[u8],
    queues: &[u8],
    hold: bool,
    set: u8,
    out: &mut [u8],
) -> Result<usize, Refusal>
    ensures { Answered (ranges list.now books.now queues.now) hold set
        out.old out.new result }
{
    if out.len() % sizes::IDENTIFIER != 0 {
        return Err(Refusal::RecordsUnsound);
    }
    if !group_sound::sound(list, books, queues) {
        return Err(Refusal::RecordsUnsound);
    }
    if !sets::fits(books[book_bytes::MEMBERS], set) {
        return Err(Refusal::SetUnfit);
    }
    let n = queues[group_bytes::MADE] as usize;
    let marks = numbers::get_number(queues, group_bytes::MARKS, group_bytes::MARKS_SIZE);
    let k = count(list, marks, hold, set, n);
    if out.len() < sizes::IDENTIFIER * k {
        return Err(Refusal::TooFewPlaces);
    }
    lay(list, marks, hold, set, n, out);
    Ok(k)
}

// The view at a place is marked, and its identifier is below another.
fn earlier(list: &[u8], marks: u64, i: usize, id: ViewId) -> bool
    requires { (view_size * i + view_size ≤ length list.now) × (i < max_views) }
    ensures { result ≡ earlier_at list.now marks id.0 i }
{
    (marks >> i) % 2 == 1 && reader::load_view(list, group_bytes::VIEW * i).id.0 < id.0
}

// The last such view among the first n of the list.
fn newest(list: &[u8], marks: u64, n: usize, id: ViewId) -> Option<View>
    requires { (view_size * n ≤ length list.now) × (n ≤ max_views) }
    ensures { result ≡ last_below list.now (earlier_at list.now marks id.0) n }
{
    for i in (0..n).rev() {
        if earlier(list, marks, i, id) {
            return Some(reader::load_view(list, group_bytes::VIEW * i));
        }
    }
    None
}

// The newest attempted view before an identifier, in a sound group.
pub fn newest_before(list: &[u8], books: &[u8], queues: &[u8], id: ViewId) -> Option<View>
    requires { ranges_sound (ranges list.now books.now queues.now) ≡ true }
    ensures { result ≡ newest_in (ranges list.now books.now queues.now) id.0 }
{
    let n = queues[group_bytes::MADE] as usize;
    let marks = numbers::get_number(queues, group_bytes::MARKS, group_bytes::MARKS_SIZE);
    newest(list, marks, n, id)
}
