// The list by itself, as a slice of records of which the first ones are made: a view is looked up by its identifier,
// and the next view is filled. Create asks first whether the list is sound; lookup takes any list.
ghost use Rattle.std.specs.Prelude.{◌≡◌, take};
ghost use Rattle.views.specs.Limits.{max_views};
ghost use Rattle.views.specs.Lists.{list_of, find_of};
ghost use Rattle.rules.specs.Sound.{set_fits};
ghost use Rattle.rules.specs.Member.{all};
ghost use Rattle.rules.specs.Group.{creates};
ghost use Rattle.events.specs.Replies.{verdict_of};
ghost use Rattle.group_listed.specs.Creates.{made_in, list_group, Created};
ghost use Rattle.group_listed.specs.CreateParts.{counts_fit, sound_by, creating_by, at_of, CreatedBy};
ghost use Rattle.group_steps.specs.CarrierParts.{all_below};

use crate::slice;
use views::list::Views;
use views::refusal::{Refusal, Verdict};
use views::{View, ViewId, limits, list};

// What a create gives, and the place of the list at which it puts a view.
#[derive(Clone, Copy)]
pub struct Creation {
    pub verdict: Verdict,
    pub at: usize,
    pub view: View,
}

// The views made, by value.
fn first(l: Views, made: usize) -> Views
    ensures { list_of result ≡ take made (list_of l) }
{
    Views {
        count: made.min(l.count),
        ..l
    }
}

// The view with the identifier among those made.
fn found(l: Views, made: usize, id: ViewId) -> Option<View>
    ensures { result ≡ find_of id.0 (take made (list_of l)) }
{
    list::find(first(l, made), id)
}

// The view with the identifier among the views made of the list. Any list and any number made will do: of the views
// made the first 32 are looked at, and past the end of the list there is none.
pub fn lookup(list: &[View], made: usize, id: ViewId) -> Option<View>
    ensures { result ≡ find_of id.0 (take max_views (made_in made list.now)) }
{
    found(slice::listed(list), made, id)
}

// The members, the list's records and those made are as many as there can be.
fn counts_fit(members: u8, room: usize, made: usize) -> bool
    ensures { result ≡ counts_fit members room made }
{
    (1..=limits::MEMBERS).contains(&members)
        && (1..=limits::VIEWS).contains(&room)
        && (1..=room).contains(&made)
}

// Every set fits.
fn sets_fit(l: Views, members: u8) -> bool
    ensures { result ≡ all (set_fits members) (list_of l) }
{
    let n = list::used(l.count);
    l.at[..n].iter().all(|v| sets::fits(members, v.set))
}

// The list is sound, with so many made.
fn sound(l: Views, made: usize, members: u8) -> bool
    ensures { result ≡ sound_by members made l }
{
    if !counts_fit(members, l.count, made) {
        return false;
    }
    let views = first(l, made);
    list::rising(views) && sets_fit(views, members)
}

// The identifier is above those of all views.
fn above(l: Views, id: ViewId) -> bool
    ensures { result ≡ all_below id.0 (list_of l) }
{
    let n = list::used(l.count);
    l.at[..n].iter().all(|v| v.id.0 < id.0)
}

// 7, 8, 9.
fn asked(l: Views, room: usize, id: ViewId, set: u8, members: u8) -> Verdict
    ensures { result ≡ verdict_of (creates (list_group members room (list_of l)) id.0 set) }
{
    if !sets::fits(members, set) {
        return Err(Refusal::SetUnfit);
    }
    if !above(l, id) {
        return Err(Refusal::IdentifierNotAbove);
    }
    if room <= list::used(l.count) {
        return Err(Refusal::ListFull);
    }
    Ok(())
}

// 4, then the rest.
fn verdict(l: Views, made: usize, id: ViewId, set: u8, members: u8) -> Verdict
    ensures { result ≡ verdict_of (creating_by members made l id.0 set) }
{
    if !sound(l, made, members) {
        return Err(Refusal::RecordsUnsound);
    }
    let views = first(l, made);
    asked(views, l.count, id, set, members)
}

// Where the view is put: past the end of the list where it was refused.
fn place(v: Verdict, made: usize, n: usize) -> usize
    ensures { result ≡ at_of v made n }
{
    match v {
        Ok(()) => made,
        Err(_) => n,
    }
}

// A create, with the list by value.
fn create_by(l: Views, made: usize, id: ViewId, set: u8, members: u8) -> Creation
    ensures { CreatedBy l made id.0 set members result }
{
    let verdict = verdict(l, made, id, set, members);
    let at = place(verdict, made, l.count);
    let view = View { id, set };
    Creation { verdict, at, view }
}

// The next view of the list, behind so many made, is filled with the identifier and the set.
pub fn create(list: &mut [View], made: usize, id: ViewId, set: u8, members: u8) -> Verdict
    ensures { Created list.old made id.0 set members list.new result }
{
    let l = slice::listed(list);
    let c = create_by(l, made, id, set, members);
    slice::put(list, c.at, c.view);
    c.verdict
}
