// The step ceiling as the commissioning handbook prints it.
ghost use Rattle.std.specs.Prelude.{◌≡◌, ◌≤◌};
ghost use Rattle.reference.specs.Quiescent.{ceiling};

// The most steps for 1 to 8 carriers, in the handbook's order.
const MOST_STEPS: [usize; 8] = [1, 4, 11, 26, 57, 120, 247, 502];

// The figure for n carriers.
pub fn most_steps(n: usize) -> usize
    requires { (1 ≤ n) × (n ≤ 8) }
    ensures { result ≡ ceiling n }
{
    MOST_STEPS[n - 1]
}
