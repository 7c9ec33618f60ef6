// The procedure over the records of the carriers above: each in turn is not heard while there is still no route, and heard again otherwise.
ghost use Rattle.std.specs.Prelude.{◌≡◌, ◌+◌, ◌*◌, ◌≤◌, ◌<◌, length};
ghost use Rattle.records.specs.Records.{records};
ghost use Rattle.search.specs.Rows.{Searchable};
ghost use Rattle.planner.specs.Plan.{respond_with};
ghost use Rattle.blockers.specs.Blockers.{tried, left_after, set_of};
ghost use Rattle.blockers.specs.Inner.{heard_digit};

use floor::Floor;
use records::SIZE;
use search::Rows;

// Tries carrier j, for the carrier with i above it: it stays out if there is still no route without it.
fn try_without(f: Floor, free: Rows, i: u16, views: &mut [u16], j: usize)
    requires { (j < i) × Searchable f free (i + 1) views.old }
    ensures { records views.new i ≡ tried (respond_with f free i) j (records views.old i) }
{
    let at = SIZE * j;
    let tag = views[at];
    views[at] = 0;
    if search::best_route(f, free, i + 1, views).is_some() {
        views[at] = tag;
    }
}

// Tries the carriers above in turn, from the first downwards in rank.
pub fn leave_out(f: Floor, free: Rows, i: u16, views: &mut [u16])
    requires { Searchable f free (i + 1) views.old }
    ensures { records views.new i ≡ left_after (respond_with f free i) i (records views.old i) }
{
    for j in 0..i as usize {
        try_without(f, free, i, views, j);
    }
}

// 1 if a record with this tag is heard, 0 if not.
fn heard_digit(tag: u16) -> u16
    ensures { (result ≡ heard_digit tag) × (result ≤ 1) }
{
    if tag == 1 || tag == 2 { 1 } else { 0 }
}

// The carriers that are heard, a bit each.
// Kept with a count: a slice of these records would be told in numbers, 65 a record, which is no plainer.
pub fn set_of(views: &[u16], k: usize) -> u16
    requires { (k ≤ 8) × (65 * k ≤ length views.now) }
    ensures { result ≡ set_of (records views.now k) }
{
    let mut set: u16 = 0;
    for j in (0..k).rev() {
        set = 2 * set + heard_digit(views[SIZE * j]);
    }
    set
}
