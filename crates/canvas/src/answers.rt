// The answers of a floor's carriers in memory, 65 numbers each, read for any place: a tag, 2 for a route, and the cells at the beats. The
// cell at beat 0 is the start, also of a carrier without a route.
ghost use Rattle.std.specs.Prelude.{◌≤◌};

use crate::page::Page;

// A carrier of a picture: its place, counted from 0, and the answers of all. A floor has eight at most; place 8 is the one behind them.
#[derive(Clone, Copy)]
pub struct Carrier<'a> {
    pub page: Page,
    pub answers: &'a [u16],
    pub place: usize,
    ghost at_most_eight: { place ≤ 8 },
}

impl Carrier<'_> {
    // A number of the answers; 0 past their end.
    fn number(self, k: usize) -> u16 {
        *self.answers.get(k).unwrap_or(&0)
    }

    // Whether it has a route.
    pub fn has_route(self) -> bool {
        self.number(65 * self.place) == 2
    }

    // Its cell at a beat.
    pub fn cell(self, t: usize) -> u16
        requires { t ≤ 64 }
    {
        self.number(65 * self.place + 1 + t)
    }

    // The arrival of its route.
    pub fn arrival(self) -> usize {
        let at = 65 * self.place + 1;
        if self.answers.len() < at + 64 {
            return 0;
        }
        route::arrival(records::load(self.answers, at), self.page.horizon) as usize
    }
}
