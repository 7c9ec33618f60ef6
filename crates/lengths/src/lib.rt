// The needed length of each lent buffer, one documented figure for a floor (document 01, 'Refused'). Each crate that
// takes a buffer states its figure; this crate is the one entry that gives them all.
#![tactic(auto)]

ghost use Rattle.std.specs.Prelude.{◌≡◌, ◌≤◌};
ghost use Rattle.trial.specs.Report.{report_size};
ghost use Rattle.lengths.specs.Figures.{figures_of, figures_for};

use floor::{Floor, Refusal};

// The needed lengths: `walls` in cell numbers of two bytes, `sheet` in bytes, `answers` in numbers of two bytes (the
// answers of a planner, and the views lent to a search), `text` in bytes (the printed routes), `state` in numbers of two
// bytes (the state of the machine), `route` in cell numbers of two bytes (what a search answers), `floor` in numbers of
// two bytes (a floor record), `figures` in numbers of eight bytes (these lengths themselves), `report` in numbers of two
// bytes (the report of a trial). Later figures stand behind.
#[derive(Clone, Copy)]
pub struct Lengths {
    pub walls: usize,
    pub sheet: usize,
    pub answers: usize,
    pub text: usize,
    pub state: usize,
    pub route: usize,
    pub floor: usize,
    pub figures: usize,
    pub report: usize,
}

// The needed length of a trial's report for n carriers: two numbers for each step of the ceiling.
fn report_length(n: usize) -> usize
    requires { (1 ≤ n) × (n ≤ 8) }
    ensures { result ≡ report_size n }
{
    2 * machine::ceiling(n).unwrap_or(0)
}

// The needed lengths of a floor. They depend on line 1's values alone, so its limits are all that is checked.
pub fn needed_lengths(f: Floor) -> Result<Lengths, Refusal>
    ensures { figures_of result ≡ figures_for f }
{
    floor::limits(f)?;
    Ok(Lengths {
        walls: f.walls as usize,
        sheet: sheet::sheet_length(f),
        answers: 65 * f.carriers as usize,
        text: printing::text_length(f),
        state: state::state_size(f.carriers as usize),
        route: 64,
        floor: 54,
        figures: 9,
        report: report_length(f.carriers as usize),
    })
}
