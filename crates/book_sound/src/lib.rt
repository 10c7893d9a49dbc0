// Whether bytes are a sound book: refusal 4 of the member by itself. Only what is used is looked at, where it lies.
#![tactic(auto)]

pub mod entries_at;
mod layout;
mod record;
pub mod views_at;

ghost use Rattle.std.specs.Prelude.{true, ◌≡◌, ◌≤◌, ◌<◌};
ghost use Rattle.rules.specs.Member.{all};
ghost use Rattle.rules.specs.Sound.{item_from_member};
ghost use Rattle.book_sound.specs.Parts.{queues_sound};
ghost use Rattle.book_bytes.specs.Books.{inward_in, layout_fits, bytes_sound};

// The inward list of a side.
fn inward_sound(b: &[u8], side: usize, n: u8) -> bool
    requires { (layout_fits b.now ≡ true) × (side ≤ 1) × (0 < n) }
    ensures { result ≡ all (item_from_member n) (inward_in b.now side) }
{
    crate::entries_at::items_sound(b, book_bytes::INWARD + book_bytes::APART * side, n)
}

// The outgoing entries and both inward lists.
fn queues_sound(b: &[u8], n: u8) -> bool
    requires { (layout_fits b.now ≡ true) × (0 < n) }
    ensures { result ≡ queues_sound n b.now }
{
    let outgoing = b[book_bytes::OUTGOING] as usize;
    let side = b[book_bytes::SIDE] as usize;
    crate::entries_at::entries_sound(b, book_bytes::OUTGOING + 1, outgoing, n)
        && inward_sound(b, side, n)
        && inward_sound(b, 1 - side, n)
}

// The bytes are a sound book.
pub fn sound(b: &[u8]) -> bool
    ensures { result ≡ bytes_sound b.now }
{
    if !crate::layout::layout_fits(b) {
        return false;
    }
    let n = b[book_bytes::MEMBERS];
    let side = b[book_bytes::SIDE] as usize;
    let own = b[book_bytes::INWARD + book_bytes::APART * side];
    let new = b[book_bytes::INWARD + book_bytes::APART * (1 - side)];
    crate::record::record_sound(b, n, own, new) && queues_sound(b, n)
}
