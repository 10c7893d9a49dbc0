// The three sorts, the view, and what every layer above says of them: sizes, limits, kinds of steps, refusals, lists of
// views.
#![tactic(auto)]

pub mod limits;
pub mod list;
pub mod refusal;
pub mod sizes;

// A view identifier, of the report's set G.
#[derive(Clone, Copy, Debug, PartialEq, Eq, PartialOrd, Ord)]
pub struct ViewId(pub u32);

// A member's number, of the report's set P.
#[derive(Clone, Copy, Debug, PartialEq, Eq, PartialOrd, Ord)]
pub struct Member(pub u8);

// A position in a queue, of the report's set N.
#[derive(Clone, Copy, Debug, PartialEq, Eq, PartialOrd, Ord)]
pub struct Position(pub u8);

// A view: its identifier, and its set of members with bit 0 for member 0.
#[derive(Clone, Copy, Debug, PartialEq, Eq, PartialOrd, Ord)]
pub struct View {
    pub id: ViewId,
    pub set: u8,
}
