// What is wrong with a map.
ghost use Rattle.std.specs.Prelude.{◌≡◌};
ghost use Rattle.map_reader.specs.declared.problems.Problem.TheVariants.{Floor};

use floor::Refusal;

// What is wrong with a map, with what its words name: a line, a column, a byte, a carrier, a number.
#[derive(Clone, Copy)]
pub enum Problem {
    // Line 1 is not `horizon H depth D`.
    Head,
    // The horizon is not 1 to 63.
    Horizon,
    // The depth is not 1 to 4.
    Depth,
    // There is no row.
    NoRow,
    // A line has no newline at its end.
    Unended { line: u16 },
    // A line is empty.
    Empty { line: u16 },
    // A line has more than 32 cells.
    Wide { line: u16 },
    // A line has not as many cells as line 2.
    Uneven { line: u16, cells: u16, width: u16 },
    // There are more than 32 rows.
    ManyRows,
    // A byte is no mark.
    NoMark { line: u16, column: u16, byte: u8 },
    // A line begins with no letter.
    NoLetter { line: u16, byte: u8 },
    // A space is missing behind a letter.
    NoSpace { line: u16 },
    // A mark stands twice behind a letter.
    Twice { line: u16, column: u16, byte: u8 },
    // A letter has fewer than two marks.
    FewMarks { line: u16 },
    // A letter has a line already.
    SecondLine { line: u16, byte: u8 },
    // A letter is on no row.
    Unused { line: u16, byte: u8 },
    // A letter of a row has no line.
    NoLine { line: u16, column: u16, byte: u8 },
    // There is no carrier.
    NoCarrier,
    // A carrier has no start.
    NoStart { carrier: u16 },
    // A carrier has several starts.
    Starts { carrier: u16, starts: u16 },
    // A carrier has no dock.
    NoDock { carrier: u16 },
    // A carrier has more than four docks.
    Docks { carrier: u16, docks: u16 },
    // The floor is refused.
    Floor,
}

impl From<Refusal> for Problem {
    ghost from_gives = { λ _ x. x ≡ Floor };

    fn from(_x: Refusal) -> Problem {
        Problem::Floor
    }
}
