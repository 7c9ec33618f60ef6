// What carriers tell: 65 numbers a carrier, a tag and 64 cells.
ghost use Rattle.std.specs.Prelude.{◌≡◌, length};

use crate::places::{NOWHERE, at, store};
use route::Route;

// The cell of carrier j + 1 at beat t as it was told: that of its route, or its start if it told none.
pub fn told(starts: &[u16], views: &[u16], j: usize, t: usize) -> usize {
    if 8 <= j || 64 <= t {
        return NOWHERE;
    }
    match at(views, 65 * j) {
        1 => at(starts, j),
        2 => at(views, 65 * j + 1 + t),
        _ => NOWHERE,
    }
}

// Whether one of the first k carriers is in cell c at beat 0 by what it told.
pub fn met(starts: &[u16], views: &[u16], k: usize, c: usize) -> bool {
    (0..k).any(|j| told(starts, views, j, 0) == c)
}

// What carrier j + 1 tells: a tag, 2 for a route and 1 for none, and 64 cells.
pub fn tell(answers: &mut [u16], j: usize, plan: Option<Route>)
    ensures { length answers.new ≡ length answers.old }
{
    if 8 <= j {
        return;
    }
    let Some(route) = plan else {
        store(answers, 65 * j, 1);
        return;
    };
    store(answers, 65 * j, 2);
    for (t, cell) in route.iter().enumerate() {
        store(answers, 65 * j + 1 + t, *cell);
    }
}
