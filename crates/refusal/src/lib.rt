// Why a call is refused.
#![tactic(auto)]

ghost use Rattle.std.specs.Prelude.{◌≡◌};
ghost use Rattle.refusal.specs.Refusal.{number_of, index_of};

// The rows of the table of refusals: each refuses for one reason.
// A chain of checks is a `Result<(), Refusal>`, so that `?` hands on the first row that refuses.
#[derive(Clone, Copy, Debug, PartialEq, Eq)]
pub enum Refusal {
    Frequency,
    Count,
    Starts,
    Id,
    Position,
    Permutation,
    EntriesPerVertex,
    Room,
    Direction,
    Flags,
    EmptyCell,
    NoTriangle,
    Unreached,
    Vertex,
    NoPath,
    StartsSpan,
    // Names the start that falls, by its index.
    StartsFall { index: usize },
    Factor,
    Margin,
}

impl Refusal {
    // The row's number.
    pub fn number(self) -> u32
        ensures { result ≡ number_of self }
    {
        // By a match, since rows have gaps and a variant with a field is no number of its own.
        match self {
            Refusal::Frequency => 1,
            Refusal::Count => 2,
            Refusal::Starts => 3,
            Refusal::Id => 4,
            Refusal::Position => 5,
            Refusal::Permutation => 6,
            Refusal::EntriesPerVertex => 7,
            Refusal::Room => 8,
            Refusal::Direction => 9,
            Refusal::Flags => 10,
            Refusal::EmptyCell => 11,
            Refusal::NoTriangle => 12,
            Refusal::Unreached => 13,
            Refusal::Vertex => 14,
            Refusal::NoPath => 15,
            Refusal::StartsSpan => 17,
            Refusal::StartsFall { index: _ } => 18,
            Refusal::Factor => 19,
            Refusal::Margin => 20,
        }
    }

    // The index that row 18 carries, and 0 for the others.
    pub fn index(self) -> usize
        ensures { result ≡ index_of self }
    {
        match self {
            Refusal::StartsFall { index } => index,
            _ => 0,
        }
    }
}
