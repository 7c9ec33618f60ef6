// The generator of order 3: the last number × 1664525 + 1013904223, modulo 2^32.
ghost use Rattle.std.specs.Prelude.{◌≡◌, ◌*◌, ◌%◌};
ghost use Rattle.orders.specs.Generator.{next_number, drawn_by};

// The product modulo 2^32. Kept beside `u32::wrapping_mul`: document 01 names this form.
fn wrapping_product(a: u32, b: u32) -> u32
    ensures { result ≡ (a * b) % 4294967296 }
{
    (a as u64 * b as u64 % 4294967296) as u32
}

// The next number.
#[tactic(auto, using(crate::proofs::GeneratorLaws::next_is))]
pub fn next_number(x: u32) -> u32
    ensures { result ≡ next_number x }
{
    wrapping_product(x, 1664525).wrapping_add(1013904223)
}

// What is drawn: the next number divided by 65536.
#[tactic(auto, unfolding(orders::specs::Generator::drawn_by))]
pub fn draw(x: u32) -> usize
    ensures { result ≡ drawn_by x }
{
    (next_number(x) / 65536) as usize
}
