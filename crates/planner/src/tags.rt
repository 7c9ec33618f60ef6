// The tags of answers: the record of a search's answer, and the first answer in memory that is no route.
ghost use Rattle.std.specs.Prelude.{◌≡◌, ◌*◌, ◌≤◌, ◌∷◌, length, IfSome};
ghost use Rattle.search.specs.Answers.{answer_of};
ghost use Rattle.records.specs.Records.{record_of};
ghost use Rattle.planner.specs.Answers.{failing_meant};
ghost use Rattle.planner.specs.Records.{first_from};

use route::Route;

// The record of an answer, by tag and cells: 2 with the route's cells, 1 with zeros for none.
pub fn told(found: Option<Route>) -> (u16, Route)
    ensures { result.0 ∷ result.1 ≡ record_of (answer_of found) }
{
    match found {
        Some(route) => (2, route),
        None => (1, [0; records::CELLS]),
    }
}

// The first of n records that has no route, counted from 1.
// Kept with a count: a slice of these records would be told in numbers, 65 a record, which is no plainer.
pub fn failing(answers: &[u16], n: usize) -> Option<usize>
    requires { (n ≤ 8) × (65 * n ≤ length answers.now) }
    ensures found { failing_meant result ≡ first_from answers.now 0 n }
    ensures counted { IfSome result (λ i. 1 ≤ i) }
{
    for i in 0..n {
        if answers[records::SIZE * i] != 2 {
            return Some(i + 1);
        }
    }
    None
}
