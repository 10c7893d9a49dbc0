// The steps in the client view, each of which a member without one is refused: the verdicts of register, send, hand,
// tell and safe. The numbers beside the record are the lengths of its queues.
ghost use Rattle.std.specs.Prelude.{◌≡◌};
ghost use Rattle.record_steps.specs.Turns.{in_step, room_for, register_verdict, send_verdict, hand_verdict};
ghost use Rattle.record_steps.specs.Turns.{tell_verdict, safe_verdict};

use book_bytes::Current;
use views::limits;
use views::refusal::{Refusal, Verdict};

// The client view is the carrier view.
pub fn in_step(h: Current) -> bool
    ensures { result ≡ in_step h }
{
    crate::tests::same_view(h.client, h.carrier)
}

// A message can be queued, or would not be.
fn has_room(h: Current, out: u8) -> bool
    ensures { result ≡ room_for h out }
{
    !in_step(h) || out < limits::OUTGOING
}

// The client view is noted as registered.
pub fn register(h: Current, out: u8) -> Verdict
    ensures { result ≡ register_verdict h out }
{
    if h.client.is_none() {
        return Err(Refusal::NoClientView);
    }
    if h.registered {
        return Err(Refusal::AlreadyRegistered);
    }
    if !has_room(h, out) {
        return Err(Refusal::OutgoingFull);
    }
    Ok(())
}

// A client message goes out.
pub fn send(h: Current, out: u8) -> Verdict
    ensures { result ≡ send_verdict h out }
{
    if h.client.is_none() {
        return Err(Refusal::NoClientView);
    }
    if !has_room(h, out) {
        return Err(Refusal::OutgoingFull);
    }
    Ok(())
}

// The next of the client view's inward list, which has so many, is handed out.
pub fn hand(h: Current, own: u8) -> Verdict
    ensures { result ≡ hand_verdict h own }
{
    if h.client.is_none() {
        return Err(Refusal::NoClientView);
    }
    if own <= h.handed.0 {
        return Err(Refusal::NoneToHand);
    }
    Ok(())
}

// The number handed out is told.
pub fn tell(h: Current, out: u8) -> Verdict
    ensures { result ≡ tell_verdict h out }
{
    if h.client.is_none() {
        return Err(Refusal::NoClientView);
    }
    if !in_step(h) {
        return Err(Refusal::ClientNotCarrier);
    }
    if h.handed == h.told || h.handed.0 == 0 {
        return Err(Refusal::NothingNewToTell);
    }
    if !has_room(h, out) {
        return Err(Refusal::OutgoingFull);
    }
    Ok(())
}

// The next handed message not yet reported is reported, of an inward list that has so many.
pub fn safe(n: u8, h: Current, own: u8) -> Verdict
    ensures { result ≡ safe_verdict n h own }
{
    let v = h.client.ok_or(Refusal::NoClientView)?;
    if !in_step(h) {
        return Err(Refusal::ClientNotCarrier);
    }
    if h.handed <= h.reported || own <= h.reported.0 {
        return Err(Refusal::NoneToReport);
    }
    if !crate::tests::all_told(n, v.set, h.tolds, h.reported) {
        return Err(Refusal::ToldTooLow);
    }
    Ok(())
}
