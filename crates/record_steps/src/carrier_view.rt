// The steps that change which views the member has: join, attempt and collect, by value.
ghost use Rattle.std.specs.Prelude.{◌≡◌, ◌≤◌};
ghost use Rattle.record_steps.specs.Turns.{join_verdict, attempt_turn, opened_to, attempted_at, collect_turn};

use book_bytes::Record;
use views::list::Views;
use views::refusal::{Refusal, Verdict};
use views::{Member, Position, View, list};

// Whether the view v may become the carrier view of the member p, which is at another or at none.
pub fn join(p: Member, v: View, at: Option<View>) -> Verdict
    ensures { result ≡ join_verdict p.0 v at }
{
    if !sets::contains(v.set, p) {
        return Err(Refusal::NotInSet);
    }
    if !crate::tests::above(v.id, at) {
        return Err(Refusal::NotAboveCarrier);
    }
    Ok(())
}

// The carrier view becomes open and becomes the client view. More than 31 may be open then: that is for the caller to
// refuse.
pub fn attempt(n: u8, h: Record) -> Result<Record, Refusal>
    requires { h.side ≤ 1 }
    ensures { result ≡ attempt_turn n h }
{
    let v = h.carrier.ok_or(Refusal::NoCarrierView)?;
    if !crate::tests::above(v.id, h.client) {
        return Err(Refusal::NotAboveClient);
    }
    if !crate::tests::all_noted(n, v.set, h.infos) {
        return Err(Refusal::InfoMissing);
    }
    if !crate::tests::passes_all(v, h.settled, h.opens) {
        return Err(Refusal::TestFailed);
    }
    Ok(attempted(v, h))
}

// The open views with v in its place, unless it is not above the settled one.
fn opened_to(v: View, settled: View, opens: Views) -> Views
    ensures { result ≡ opened_to v settled opens }
{
    if settled.id < v.id {
        list::insert(opens, v)
    } else {
        opens
    }
}

fn attempted(v: View, h: Record) -> Record
    requires { h.side ≤ 1 }
    ensures { result ≡ attempted_at v h }
{
    Record {
        opens: opened_to(v, h.settled, h.opens),
        client: Some(v),
        registered: false,
        handed: Position(0),
        told: Position(0),
        reported: Position(0),
        side: 1 - h.side,
        ..h
    }
}

// The carrier view becomes settled; only open views above it remain.
pub fn collect(n: u8, h: Record) -> Result<Record, Refusal>
    ensures { result ≡ collect_turn n h }
{
    let v = h.carrier.ok_or(Refusal::NoCarrierView)?;
    if v.id <= h.settled.id {
        return Err(Refusal::NotAboveSettled);
    }
    if !crate::tests::all_noted(n, v.set, h.registrations) {
        return Err(Refusal::RegistrationMissing);
    }
    Ok(Record {
        settled: v,
        opens: list::prune(h.opens, v.id),
        ..h
    })
}
