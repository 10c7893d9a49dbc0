// The driver's steps, applied to the group one after another up to the first refusal. 4 is not checked if the group is
// known to stay sound.
ghost use Rattle.std.specs.Prelude.{true, ◌≡◌, replicate};
ghost use Rattle.views.specs.Lists.{id_of};
ghost use Rattle.rules.specs.Forming.{servers_of, by_each, exchange_steps, round_steps, form_steps};
ghost use Rattle.group_bytes.specs.Groups.{ranges};
ghost use Rattle.group.specs.StepCalls.{asked};
ghost use Rattle.group.specs.StaysSoundParts.{StaysSound};
ghost use Rattle.group_form.specs.Parts.{Drove};

use events::kinds;
use views::refusal::Verdict;
use views::{Member, View, ViewId, limits};

// The same step k times.
fn repeat(
    list: &mut [u8],
    all: &mut [u8],
    queues: &mut [u8],
    known: bool,
    kind: u8,
    p: Member,
    id: ViewId,
    k: u8,
) -> Verdict
    requires { known ≡ true → StaysSound (ranges list.old all.old queues.old) }
    ensures { Drove (ranges list.old all.old queues.old)
        (replicate k (asked kind p.0 id.0))
        (ranges list.new all.new queues.new) result }
{
    // The index has a name, since the proof names it.
    for _i in 0..k {
        group::step::next(list, all, queues, known, kind, p.0 as u32, id.0 as u64)?;
    }
    Ok(())
}

// One kind of step by each server of the view, rising, one's k steps together.
fn each(
    list: &mut [u8],
    all: &mut [u8],
    queues: &mut [u8],
    known: bool,
    kind: u8,
    v: View,
    k: u8,
) -> Verdict
    requires { known ≡ true → StaysSound (ranges list.old all.old queues.old) }
    ensures { Drove (ranges list.old all.old queues.old)
        (by_each kind k (id_of v) (servers_of v))
        (ranges list.new all.new queues.new) result }
{
    for p in 0..limits::MEMBERS {
        if sets::contains(v.set, Member(p)) {
            repeat(list, all, queues, known, kind, Member(p), v.id, k)?;
        }
    }
    Ok(())
}

// What is outgoing goes by passes, orders, then deliveries.
fn exchange(list: &mut [u8], all: &mut [u8], queues: &mut [u8], known: bool, v: View) -> Verdict
    requires { known ≡ true → StaysSound (ranges list.old all.old queues.old) }
    ensures { Drove (ranges list.old all.old queues.old)
        (exchange_steps (id_of v) (servers_of v))
        (ranges list.new all.new queues.new) result }
{
    each(list, all, queues, known, kinds::PASS, v, 1)?;
    each(list, all, queues, known, kinds::ORDER, v, 1)?;
    let k = v.set.count_ones() as u8;
    each(list, all, queues, known, kinds::DELIVER, v, k)
}

// A kind of step by each server, what it sends exchanged, then another kind.
fn round(
    list: &mut [u8],
    all: &mut [u8],
    queues: &mut [u8],
    known: bool,
    first: u8,
    last: u8,
    v: View,
) -> Verdict
    requires { known ≡ true → StaysSound (ranges list.old all.old queues.old) }
    ensures { Drove (ranges list.old all.old queues.old)
        (round_steps first last (id_of v) (servers_of v))
        (ranges list.new all.new queues.new) result }
{
    each(list, all, queues, known, first, v, 1)?;
    exchange(list, all, queues, known, v)?;
    each(list, all, queues, known, last, v, 1)
}

// Joins, infos, attempts, registrations and collects.
pub fn steps(list: &mut [u8], all: &mut [u8], queues: &mut [u8], known: bool, v: View) -> Verdict
    requires { known ≡ true → StaysSound (ranges list.old all.old queues.old) }
    ensures { Drove (ranges list.old all.old queues.old)
        (form_steps v)
        (ranges list.new all.new queues.new) result }
{
    round(list, all, queues, known, kinds::JOIN, kinds::ATTEMPT, v)?;
    round(list, all, queues, known, kinds::REGISTER, kinds::COLLECT, v)
}
