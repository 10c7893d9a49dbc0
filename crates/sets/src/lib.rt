// Sets of members as bytes, bit 0 for member 0, and the majority test.
#![tactic(auto)]

ghost use Rattle.std.specs.Prelude.{◌≡◌};
ghost use Rattle.views.specs.Sets.{has, is_empty, is_beyond, in_common, majority_of, fits};

use views::{Member, limits};

// The member is in the set.
pub fn contains(set: u8, member: Member) -> bool
    ensures { result ≡ has set member.0 }
{
    member.0 < limits::MEMBERS && (set >> member.0) % 2 == 1
}

// The set has no member.
pub fn empty(set: u8) -> bool
    ensures { result ≡ is_empty set }
{
    set == 0
}

// Bits of the number that a set is shifted in. It is wider than a set, so that a caller whose members are at most eight
// pays for no test of their number.
const BITS: u8 = 32;

// The set has a member that is not below the number of members.
pub fn beyond(set: u8, members: u8) -> bool
    ensures { result ≡ is_beyond set members }
{
    members < BITS && 0 < set as u32 >> members
}

// The set is not empty and within n members.
pub fn fits(n: u8, set: u8) -> bool
    ensures { result ≡ fits n set }
{
    !empty(set) && !beyond(set, n)
}

// The members that both sets have.
pub fn common(a: u8, b: u8) -> u8
    ensures { result ≡ in_common a b }
{
    a & b
}

// Twice the members in common exceed the members of the held set.
pub fn majority(set: u8, held: u8) -> bool
    ensures { result ≡ majority_of set held }
{
    u8::count_ones(held) < 2 * u8::count_ones(set & held)
}
