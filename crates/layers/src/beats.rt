// Beats looked at from the last one down.
ghost use Rattle.std.specs.Prelude.{◌≡◌, true, false, ℕ, ◌-◌, ◌≤◌, ◌<◌};

// The least number from which on all below n pass a test; n where the last fails.
pub fn held_from<F: Fn(usize) -> bool>(n: usize, test: F) -> usize
    requires { (t : ℕ) → t < n → F.pre test t }
    ensures upto { result ≤ n }
    ensures held { (t : ℕ) → result ≤ t → t < n → F.post test t true }
    ensures before { 0 < result → F.post test (result - 1) false }
{
    for t in (0..n).rev() {
        if !test(t) {
            return t + 1;
        }
    }
    0
}
