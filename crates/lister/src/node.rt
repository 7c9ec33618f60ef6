// A node of the tree of runs, by value: a state, and the steps taken from fresh to it.
ghost use Rattle.std.specs.Prelude.{◌≡◌, true, [], ◌∷◌, ◌++◌, ◌+◌, ◌*◌, ◌≤◌, ◌<◌, length, take};
ghost use Rattle.orders.specs.Orders.{places, step_at};
ghost use Rattle.encoding.specs.Places.{state_size};
ghost use Rattle.encoding.specs.InnerSteps.{open_in, silent_in};
ghost use Rattle.steps.specs.Inner.{bare, Workable};
ghost use Rattle.lister.specs.Inner.{Rooted, NodeAfter};

use floor::Floor;
use search::Rows;

// The most carriers of a floor whose runs are listed.
pub const CARRIERS: usize = 3;

// The numbers of the state of three carriers.
const STATE: usize = 1181;

// The most steps that three carriers take.
pub const STEPS: usize = 11;

// The numbers of the steps of a run, two a step.
pub const TRAIL: usize = 2 * STEPS;

// A node: its state, as in lent memory; the steps taken to it, two numbers a step, as in a report; how many they are.
#[derive(Clone, Copy)]
pub struct Node {
    pub memory: [u16; STATE],
    pub trail: [u16; TRAIL],
    pub steps: usize,
}

// Room for the state of the most carriers.
fn no_memory() -> [u16; STATE]
    ensures { 1181 ≡ length result }
{
    [0; STATE]
}

// Room for the steps of the longest run.
fn no_trail() -> [u16; TRAIL]
    ensures { 22 ≡ length result }
{
    [0; TRAIL]
}

// The numbers of k steps with those of one more.
fn with_step(trail: [u16; TRAIL], k: usize, number: u16, answer: u16) -> [u16; TRAIL]
    requires { k < 11 }
    ensures { (take (2 * (k + 1)) result ≡ take (2 * k) trail ++ (number ∷ (answer ∷ []))) × (length result ≡ 22) }
{
    let mut longer = trail;
    longer[2 * k] = number;
    longer[2 * k + 1] = answer;
    longer
}

impl Node {
    // The fresh state of n carriers, no step being taken.
    pub fn root(n: usize) -> Self
        requires { (n ≤ 8) × (state_size n ≤ 1181) }
        ensures { Rooted n result }
    {
        let mut memory = no_memory();
        state::write_fresh(&mut memory, n);
        Self {
            memory,
            trail: no_trail(),
            steps: 0,
        }
    }

    // Whether the step at a place of the ranking is open. (Kept here and in `is_silent`: a `State` would be taken apart at once again.)
    pub fn is_open_at(&self, f: Floor, p: usize) -> bool
        requires p_bound { p < places f.carriers }
        requires carriers_bound { (f.carriers ≤ 8) × (state_size f.carriers ≤ length self.now.memory) }
        ensures { result ≡ open_in (bare f) self.now.memory (step_at f.carriers p) }
    {
        steps::is_open(f, &self.memory, trial::step_at(f.carriers as usize, p))
    }

    // Whether no step is open.
    pub fn is_silent(&self, f: Floor) -> bool
        requires { (f.carriers ≤ 8) × (state_size f.carriers ≤ length self.now.memory) }
        ensures { result ≡ silent_in (bare f) self.now.memory }
    {
        steps::is_silent(f, &self.memory)
    }

    // The node after the open step at a place.
    pub fn after(&self, f: Floor, walls: &[u16], free: Rows, p: usize) -> Self
        requires p_bound { (p < places f.carriers) × (open_in (bare f) self.now.memory (step_at f.carriers p) ≡ true) }
        requires workable { Workable f walls.now free self.now.memory × (self.now.steps < 11) }
        ensures { NodeAfter f walls.now self.now p result }
    {
        let x = trial::step_at(f.carriers as usize, p);
        let number = trial::number_of(f, x);
        let mut memory = self.memory;
        let taken = steps::take(f, walls, free, &mut memory, x);
        let k = self.steps;
        let trail = with_step(self.trail, k, number, trial::answer_number(taken));
        Self {
            memory,
            trail,
            steps: k + 1,
        }
    }
}
