// The taken count: thousands and rest.
ghost use Rattle.std.specs.Prelude.{◌≡◌, ◌≤◌, length};
ghost use Rattle.encoding.specs.InnerSteps.{ticked};

// Counts one more step; the count stays at 999,999 once there.
#[tactic(auto, using(crate::proofs::CountLaws::tick_cases))]
pub fn tick(m: &mut [u16])
    requires { 2 ≤ length m.old }
    ensures { m.new ≡ ticked m.old }
{
    let rest = m[1];
    let thousands = m[0];
    if rest < 999 {
        m[1] = rest + 1;
    } else if thousands < 999 {
        m[0] = thousands + 1;
        m[1] = 0;
    }
}
