// The driver: one call takes the newest view, which nobody has joined, from made to settled by ordinary steps. Either
// all of them are taken, or the first refusal among them is given and every lent byte is as it was.
#![tactic(auto)]

mod asks;
mod drive;
mod undo;

ghost use Rattle.std.specs.Prelude.{true, ◌≡◌};
ghost use Rattle.views.specs.Sets.{size};
ghost use Rattle.rules.specs.Forming.{form_steps, form_count};
ghost use Rattle.group_bytes.specs.Groups.{ranges, ranges_sound};
ghost use Rattle.group_form.specs.FormCalls.{Formed};
ghost use Rattle.group_form.specs.Parts.{newest_of, Fresh, FormedAs};

use views::ViewId;
use views::refusal::Refusal;

// How many steps form a view with the set.
fn count(set: u8) -> u32
    ensures { result ≡ form_count (size «set») }
{
    let k = set.count_ones();
    2 * (k * k) + 8 * k
}

// All the steps that form the newest view of a sound group, which nobody joined and which passes the test, or none.
fn whole(list: &mut [u8], all: &mut [u8], queues: &mut [u8]) -> Result<u32, Refusal>
    requires { (ranges_sound (ranges list.old all.old queues.old) ≡ true)
        × Fresh (ranges list.old all.old queues.old) (newest_of (ranges list.old all.old queues.old)) }
    ensures { FormedAs (ranges list.old all.old queues.old)
        (form_steps (newest_of (ranges list.old all.old queues.old)))
        (ranges list.new all.new queues.new) result }
{
    let i = queues[group_bytes::MADE] - 1;
    let v = wire::reader::load_view(list, group_bytes::VIEW * (i as usize));
    crate::undo::all_or_none(list, all, queues, v, i)?;
    Ok(count(v.set))
}

// The view with the identifier is formed.
pub fn form(list: &mut [u8], all: &mut [u8], queues: &mut [u8], id: ViewId) -> Result<u32, Refusal>
    ensures { Formed (ranges list.old all.old queues.old) id.0
        (ranges list.new all.new queues.new) result }
{
    if !group_sound::sound(list, all, queues) {
        return Err(Refusal::RecordsUnsound);
    }
    crate::asks::ask(list, all, queues, id)?;
    whole(list, all, queues)
}
