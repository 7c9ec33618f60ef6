// Routes: the conflict test of two routes and the arrival of a route (document 01, 'Routes'; document 02, slips 7, 9 and 10).
// A route is 64 cell numbers, one a beat; a horizon above 63 counts as 63.
#![tactic(auto)]

ghost use Rattle.std.specs.Prelude.{◌≡◌, ◌≤◌, min};
ghost use Rattle.route.specs.Arrival.{arrival_of};
ghost use Rattle.route.specs.ConflictTest.{conflict_told, changes, enters, follows, first_conflict};

// A route, handed about whole: its cell at each beat, 0 after the horizon.
pub type Route = [u16; 64];

// The last beat that counts.
fn last_beat(horizon: u16) -> usize
    ensures { (result ≡ min horizon 63) × (result ≤ 63) }
{
    horizon.min(63) as usize
}

// A conflict of two routes, with its beat.
#[derive(Clone, Copy, Debug, PartialEq, Eq)]
pub enum Conflict {
    // Both are in one cell at this beat.
    SameCell(usize),
    // They change places between this beat and the next.
    ChangeOfPlaces(usize),
    // One enters, between this beat and the next, the cell that the other leaves.
    Following(usize),
}

// Whether a move from c to d and one from x to y change places.
#[tactic(auto, unfolding(crate::specs::ConflictTest::changes))]
fn change_places(c: u16, d: u16, x: u16, y: u16) -> bool
    ensures { result ≡ changes c d x y }
{
    c == y && d == x
}

// Whether a move from c to d enters the cell that a move from x to y leaves.
#[tactic(auto, unfolding(crate::specs::ConflictTest::enters))]
fn enters_left(c: u16, d: u16, x: u16, y: u16) -> bool
    ensures { result ≡ enters c d x y }
{
    d == x && d != c && y != x
}

// Whether, of a move from c to d and one from x to y, one enters the cell that the other leaves.
#[tactic(auto, unfolding(crate::specs::ConflictTest::follows))]
fn following(c: u16, d: u16, x: u16, y: u16) -> bool
    ensures { result ≡ follows c d x y }
{
    enters_left(c, d, x, y) || enters_left(x, y, c, d)
}

// The first conflict of two routes through the horizon, if there is one; at one beat same cell comes before change of places, and this
// before following.
pub fn first_conflict(r: Route, q: Route, horizon: u16) -> Option<Conflict>
    ensures { conflict_told result ≡ first_conflict (min horizon 63) r q }
{
    let last = last_beat(horizon);
    for t in 0..last {
        let next = t + 1;
        let c = r[t];
        let d = r[next];
        let x = q[t];
        let y = q[next];
        if c == x {
            return Some(Conflict::SameCell(t));
        }
        if change_places(c, d, x, y) {
            return Some(Conflict::ChangeOfPlaces(t));
        }
        if following(c, d, x, y) {
            return Some(Conflict::Following(t));
        }
    }
    if r[last] == q[last] {
        return Some(Conflict::SameCell(last));
    }
    None
}

// The least beat from which a route is at its last cell through the horizon.
pub fn arrival(r: Route, horizon: u16) -> u16
    ensures { result ≡ arrival_of r (min horizon 63) }
{
    let last = last_beat(horizon);
    let end = r[last];
    let mut a: usize = 0;
    for t in 0..last {
        if r[t] != end {
            a = t + 1;
        }
    }
    a as u16
}
