// The operands of a line to write: decimal numbers with single spaces or colons between them.
ghost use Rattle.std.specs.Prelude.{◌≤◌, ◌<◌, ◌≡◌, drop};
ghost use Rattle.views.specs.Lists.{placed};
ghost use Rattle.test_vectors.specs.LineParts.{ends_at, Numbered, view_at, views_from, frame_of};

use views::list::Views;
use views::{View, ViewId};
use wire::Frame;

// How many numbers end at a byte: a space or a colon ends one.
#[tactic(auto, unfolding(crate::specs::LineParts::ends_at))]
fn ends(c: u8) -> usize
    ensures { (result ≤ 1) × (result ≡ ends_at c) }
{
    usize::from(c == b' ' || c == b':')
}

// The numbers from `from` on, and how many they are.
pub fn numbers(line: &[u8], from: usize, xs: &mut [u64; 640]) -> usize
    ensures { Numbered (drop from line.now) xs.old xs.new result }
{
    let mut n: usize = 0;
    for i in from..line.len() {
        if n == 639 {
            return n;
        }
        let c = line[i];
        xs[n] = test_script::parse::push(xs[n], c);
        n += ends(c);
    }
    n + 1
}

// The view at a place of the numbers: its identifier, then its set.
fn view(xs: &[u64; 640], at: usize) -> View
    requires { at < 639 }
    ensures { result ≡ view_at xs.now at }
{
    View {
        id: ViewId((xs[at] % 4294967296) as u32),
        set: (xs[at + 1] % 256) as u8,
    }
}

// The n views from the fifth number on.
fn views(xs: &[u64; 640], n: usize) -> Views
    ensures { result ≡ placed (views_from xs.now 4 n) }
{
    let none = View {
        id: ViewId(0),
        set: 0,
    };
    let mut at = [none; 32];
    for i in 0..n.min(32) {
        at[i] = view(xs, 4 + 2 * i);
    }
    Views { count: n, at }
}

// The frame that n numbers say.
pub fn frame(xs: &[u64; 640], n: usize) -> Frame
    ensures { result ≡ frame_of xs.now n }
{
    let count = if n < 4 { 0 } else { (n - 4) / 2 };
    let list = views(xs, count);
    Frame {
        view: ViewId((xs[2] % 4294967296) as u32),
        message: wire::format::message((xs[1] % 256) as u8, xs[3]),
        views: list,
    }
}
