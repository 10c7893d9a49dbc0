// What the rules ask of a record: an order of views, what was noted or told by every member, the test.
ghost use Rattle.std.specs.Prelude.{◌≡◌, ◌<◌, eqb, ltb, not, ◌||◌, get_or, ◌∷◌};
ghost use Rattle.views.specs.Sets.{has, one};
ghost use Rattle.views.specs.Lists.{list_of};
ghost use Rattle.rules.specs.Member.{is_above, every, all, passes};
ghost use Rattle.rules.specs.Data.{rank};

use views::list::Views;
use views::{Member, Position, View, ViewId, list};

// The identifier is above a view's, if there is one.
pub fn above(id: ViewId, seat: Option<View>) -> bool
    ensures { result ≡ is_above id.0 seat }
{
    match seat {
        Some(v) => v.id < id,
        None => true,
    }
}

// Both are views with one identifier, or neither is there.
pub fn same_view(a: Option<View>, b: Option<View>) -> bool
    ensures { result ≡ eqb (rank a) (rank b) }
{
    match (a, b) {
        (Some(v), Some(w)) => v.id == w.id,
        (None, None) => true,
        _ => false,
    }
}

// Every one of n members that is in the set is noted.
pub fn all_noted(n: u8, members: u8, noted: u8) -> bool
    ensures { result ≡ every n (λ q. not (has members q) || has noted q) }
{
    (0..n).all(|q| !sets::contains(members, Member(q)) || sets::contains(noted, Member(q)))
}

// The told count of a member, 0 beyond the last.
pub fn told_by(tolds: [u8; 8], member: Member) -> u8
    ensures { result ≡ get_or tolds member.0 0 }
{
    tolds.get(usize::from(member.0)).copied().unwrap_or(0)
}

// Every one of n members that is in the set told of more than a count.
pub fn all_told(n: u8, members: u8, tolds: [u8; 8], count: Position) -> bool
    ensures { result ≡ every n (λ q. not (has members q) || ltb count.0 (get_or tolds q 0)) }
{
    (0..n).all(|q| !sets::contains(members, Member(q)) || count.0 < told_by(tolds, Member(q)))
}

// The view passes the test against the settled view and every open one.
pub fn passes_all(v: View, settled: View, opens: Views) -> bool
    ensures { result ≡ all (passes one v) (settled ∷ list_of opens) }
{
    let n = list::used(opens.count);
    sets::majority(v.set, settled.set) && opens.at[..n].iter().all(|w| sets::majority(v.set, w.set))
}
