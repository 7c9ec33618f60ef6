// The answers of the library's entries as words.
ghost use Rattle.std.specs.Prelude.{◌≡◌};
ghost use Rattle.floor.specs.Answers.{outcome_by};
ghost use Rattle.abi.specs.Word.{Done, done, word_of};
ghost use Rattle.kalomivund.specs.Told.{conflict_tells, listed_tells, plan_tells, record_tells, run_tells, step_tells};

use abi::word;
use floor::Refusal;
use legality::Record;
use lister::Listed;
use machine::{Ending, Run};
use route::Conflict;
use steps::Taken;

// What an answer tells in a word: a case and a number.
pub trait Told {
    ghost tells: { Self → Done };

    // The case and the number.
    fn told(self) -> (u16, usize)
        ensures { done result.0 result.1 ≡ tells self };
}

// A number of steps, of bytes, or a carrier's arrival: case 0 with it.
impl Told for usize {
    ghost tells = { done 0 };

    fn told(self) -> (u16, usize) {
        (0, self)
    }
}

impl Told for u16 {
    ghost tells = { done 0 };

    fn told(self) -> (u16, usize) {
        (0, self as usize)
    }
}

// The first carrier of a plan that has no route: case 0 with it, or with 0 where all have routes.
impl Told for Option<usize> {
    ghost tells = { plan_tells };

    fn told(self) -> (u16, usize) {
        (0, self.unwrap_or(0))
    }
}

// A step: case 0 kept, 1 sent, 2 delivered.
impl Told for Taken {
    ghost tells = { step_tells };

    fn told(self) -> (u16, usize) {
        let case = match self {
            Taken::Kept => 0,
            Taken::Sent => 1,
            Taken::Delivered => 2,
        };
        (case, 0)
    }
}

// A run: case 0 silent, 1 spent, 2 ended, with the number of steps taken.
impl Told for Run {
    ghost tells = { run_tells };

    fn told(self) -> (u16, usize) {
        let case = match self.ending {
            Ending::Silent => 0,
            Ending::Spent => 1,
            Ending::Ended => 2,
        };
        (case, self.taken)
    }
}

// The run of a rank: the case is how many steps it has, the number how many runs there are.
impl Told for Listed {
    ghost tells = { listed_tells };

    fn told(self) -> (u16, usize) {
        (self.steps, self.total as usize)
    }
}

// The conflict test: case 0 free, 1 same cell, 2 change of places, 3 following, with the beat.
impl Told for Option<Conflict> {
    ghost tells = { conflict_tells };

    fn told(self) -> (u16, usize) {
        match self {
            None => (0, 0),
            Some(Conflict::SameCell(t)) => (1, t),
            Some(Conflict::ChangeOfPlaces(t)) => (2, t),
            Some(Conflict::Following(t)) => (3, t),
        }
    }
}

// The check of a record: case 0 a route with its arrival, 1 none, 2 not heard, 3 to 8 the cause of what is wrong, with its beat.
impl Told for Record {
    ghost tells = { record_tells };

    fn told(self) -> (u16, usize) {
        match self {
            Record::Route(a) => (0, a as usize),
            Record::None => (1, 0),
            Record::NotHeard => (2, 0),
            Record::Wrong(x) => (x.cause.number(), x.beat),
        }
    }
}

// The word of an answer that may be refused.
pub fn word<T: Told>(x: Result<T, Refusal>) -> u64
    ensures { result ≡ word_of (outcome_by T.tells x) }
{
    match x {
        Ok(answer) => {
            let (case, number) = answer.told();
            word::done(case, number)
        }
        Err(r) => word::refused(r.number(), r.place),
    }
}
