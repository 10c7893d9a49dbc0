// What taking a message changes: a member noted, and the settled view after an info where no view is open.
ghost use Rattle.std.specs.Prelude.{◌≡◌, [], ◌<◌};
ghost use Rattle.views.specs.Limits.{max_members};
ghost use Rattle.views.specs.Sets.{with_member};
ghost use Rattle.rules.specs.Member.{settled_by};

use views::{Member, View};

// The set with the member in it.
pub fn with_member(members: u8, q: Member) -> u8
    requires { q.0 < max_members }
    ensures { result ≡ with_member q.0 members }
{
    members | (1u8 << q.0)
}

// The settled view after an info with the settled view x, where no view is open.
pub fn later(x: View, own: View) -> View
    ensures { result ≡ settled_by x (record { settled = own; opens = [] }) }
{
    if own.id < x.id { x } else { own }
}
