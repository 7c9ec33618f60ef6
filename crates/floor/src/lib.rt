// The floor of document 01: the record, its limits, and the checks 2 to 6 and 17 of a floor given as a record (with 9 for
// walls that are counted and not lent). Knows nothing of text, routes or messages.
#![tactic(auto)]

mod bounds;
mod checks;

ghost use Rattle.std.specs.Prelude.{◌≡◌};
ghost use Rattle.floor.specs.Answers.{number_of, verdict_of};
ghost use Rattle.floor.specs.Checks.{check_of};
ghost use Rattle.floor.specs.Fresh.{fresh_floor};

pub use bounds::limits;
pub use checks::{check_length, docks_of, is_wall};

// A floor by value. Cells are cell numbers, row × width + column; the walls lie in a slice that the caller lends,
// by strictly rising cell number. A carrier may end at any of its docks: those of carrier i, counted from 0, are at 4 × i
// and on, as many as its dock count says. Places past the carrier count, a dock count or the wall count are no part of the
// floor.
#[derive(Clone, Copy)]
pub struct Floor {
    pub width: u16,
    pub height: u16,
    pub horizon: u16,
    pub depth: u16,
    pub carriers: u16,
    pub walls: u16,
    pub starts: [u16; 8],
    pub counts: [u16; 8],
    pub docks: [u16; 32],
}

impl Floor {
    // The limits of a floor, told from this one place. The smallest value is 1, and 0 for walls.
    pub const MAX_WIDTH: u16 = 32;

    pub const MAX_HEIGHT: u16 = 32;

    pub const MAX_HORIZON: u16 = 63;

    pub const MAX_DEPTH: u16 = 4;

    pub const MAX_CARRIERS: u16 = 8;

    pub const MAX_WALLS: u16 = 1023;

    pub const MAX_DOCKS: u16 = 4;

    // The smallest floor: one cell, one beat, one message, one carrier that is at its one dock, no wall.
    pub fn fresh() -> Self
        ensures { result ≡ fresh_floor }
    {
        Self {
            width: 1,
            height: 1,
            horizon: 1,
            depth: 1,
            carriers: 1,
            walls: 0,
            starts: [0; 8],
            counts: [1; 8],
            docks: [0; 32],
        }
    }
}

// Why a request is refused: the rows of document 01's table of refusals, and of the change requests', each under its number.
#[derive(Clone, Copy, Debug, PartialEq, Eq)]
pub enum Reason {
    // The form of a sheet is wrong; the byte.
    Form = 1,
    // A value of line 1 is outside its limits; the field.
    Limits = 2,
    // A cell lies outside the grid, or a record's dock count is outside 1 to 4; the item.
    OutsideGrid = 3,
    // A wall is not above the one before; the item.
    WallOrder = 4,
    // A start or a dock is a wall; the carrier.
    OnWall = 5,
    // An earlier carrier has the same start; the carrier.
    SharedStart = 6,
    // No such step or carrier; the position.
    Unknown = 7,
    // The carrier is not due.
    NotDue = 8,
    // Lent memory is too short.
    TooShort = 9,
    // The lent memory is no state of this floor.
    NoState = 10,
    // No such order of a trial.
    NoOrder = 11,
    // Nothing is under way to the carrier.
    NothingSent = 12,
    // The channel to the carrier is full.
    ChannelFull = 13,
    // The floor has more carriers than runs are listed for.
    TooManyCarriers = 14,
    // No run has that rank.
    NoRank = 15,
    // The carrier has a route.
    HasRoute = 16,
    // A dock is twice in the carrier's list.
    RepeatedDock = 17,
}

// A refusal of document 01: its reason, and the place that the table of refusals gives with it.
#[derive(Clone, Copy, Debug, PartialEq, Eq)]
pub struct Refusal {
    pub reason: Reason,
    pub place: usize,
}

impl Refusal {
    // The number of its reason in the table.
    pub fn number(self) -> u16
        ensures { result ≡ number_of self.reason }
    {
        self.reason as u16
    }
}

// Checks a floor given as a record, with its walls: 2, then 9 if fewer walls are lent than counted, then 3, 4, 5, 6,
// 17.
pub fn check(f: Floor, walls: &[u16]) -> Result<(), Refusal>
    ensures { verdict_of result ≡ check_of f walls.now }
{
    limits(f)?;
    check_length(f.walls as usize, walls.len())?;
    checks::places(f, walls)
}
