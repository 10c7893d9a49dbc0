// The driver's steps, or none of them. If it is certain that none is refused, they are just taken. Otherwise what they
// can change is kept in copies and put back after a refusal: the books, the newest view's queues, and the queues' head.
ghost use Rattle.std.specs.Prelude.{◌≡◌, ◌+◌, ◌≤◌, length};
ghost use Rattle.views.specs.Limits.{max_views};
ghost use Rattle.rules.specs.Forming.{form_steps};
ghost use Rattle.group_bytes.specs.Places.{head_size, table_size, order_at};
ghost use Rattle.group_bytes.specs.Groups.{ranges, made_of};
ghost use Rattle.group_form.specs.Parts.{kept_of, put_back, Fresh, Stands, QueuesKept, AllKept};

use views::View;
use views::refusal::Verdict;

// What the copy of the queues holds: the head, then the queues of one view.
const KEPT: usize = group_bytes::HEAD + group_bytes::TABLE;

// The head and the queues of the view at a place are copied.
fn save(kept: &mut [u8], queues: &[u8], i: u8)
    requires { (length kept.old ≡ head_size + table_size) × (i ≤ max_views)
        × (order_at i + table_size ≤ length queues.now) }
    ensures { kept.new ≡ kept_of queues.now i }
{
    wire::writer::copy(kept, 0, queues, 0, group_bytes::HEAD);
    let at = group_bytes::order_at(i);
    wire::writer::copy(kept, group_bytes::HEAD, queues, at, group_bytes::TABLE);
}

// The copies of the head and of the queues are put back.
fn restore(queues: &mut [u8], kept: &[u8], i: u8)
    requires { (length kept.now ≡ head_size + table_size) × (i ≤ max_views)
        × (order_at i + table_size ≤ length queues.old) }
    ensures { queues.new ≡ put_back queues.old kept.now i }
{
    wire::writer::copy(queues, 0, kept, 0, group_bytes::HEAD);
    let at = group_bytes::order_at(i);
    wire::writer::copy(queues, at, kept, group_bytes::HEAD, group_bytes::TABLE);
}

// The steps; after a refusal the queues are as they were.
fn keeping_queues(list: &mut [u8], all: &mut [u8], queues: &mut [u8], v: View, i: u8) -> Verdict
    requires { Stands (ranges list.old all.old queues.old) v i }
    ensures { QueuesKept (ranges list.old all.old queues.old) (form_steps v)
        (ranges list.new all.new queues.new) result }
{
    let mut kept = [0u8; KEPT];
    save(&mut kept, queues, i);
    let taken = crate::drive::steps(list, all, queues, false, v);
    if taken.is_err() {
        restore(queues, &kept, i);
    }
    taken
}

// The steps; after a refusal the books too are as they were.
fn keeping_books(list: &mut [u8], all: &mut [u8], queues: &mut [u8], v: View, i: u8) -> Verdict
    requires { Stands (ranges list.old all.old queues.old) v i }
    ensures { AllKept (ranges list.old all.old queues.old) (form_steps v)
        (ranges list.new all.new queues.new) result }
{
    let mut kept = [0u8; group_bytes::BOOKS];
    wire::writer::copy(&mut kept, 0, all, 0, group_bytes::BOOKS);
    let taken = keeping_queues(list, all, queues, v, i);
    if taken.is_err() {
        wire::writer::copy(all, 0, &kept, 0, group_bytes::BOOKS);
    }
    taken
}

// All the steps that form the newest view, at the last place, or none of them. If no client view is above its carrier
// view, the group stays sound; if the view is untouched too, no step is refused. So it is of all groups that steps lead
// to. For any other group copies are kept. The function that keeps them is called from two places, so that the compiler
// does not make it, with its 75 KB of stack, a part of this one.
pub fn all_or_none(list: &mut [u8], all: &mut [u8], queues: &mut [u8], v: View, i: u8) -> Verdict
    requires { Stands (ranges list.old all.old queues.old) v i
        × (i + 1 ≡ made_of (ranges list.old all.old queues.old))
        × Fresh (ranges list.old all.old queues.old) v }
    ensures { AllKept (ranges list.old all.old queues.old) (form_steps v)
        (ranges list.new all.new queues.new) result }
{
    if !group::stays_sound::none_above(all) {
        return keeping_books(list, all, queues, v, i);
    }
    if !crate::asks::untouched(all, queues, v.id, i) {
        return keeping_books(list, all, queues, v, i);
    }
    crate::drive::steps(list, all, queues, true, v)
}
