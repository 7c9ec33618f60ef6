// The set of one beat as eight stripes of four rows, rows 8 apart side by side: the row above and the row below each of the four stand in
// the stripes beside theirs, so that one step of a set is four rows at a time, in registers.
ghost use Rattle.std.specs.Prelude.{◌≡◌, ℕ, ◌+◌, ◌≤◌, length, get_or};
ghost use Rattle.bitrows.specs.Rows.{written};
ghost use Rattle.layers.specs.Table.{Rewritten};
ghost use Rattle.layers.specs.Stripes.{four, stripes_of, lanes_of, step_word};

// Four rows.
type Stripe = [u32; 4];

// The rows of a beat.
pub type Stripes = [Stripe; 8];

// Four words of a table from word i behind word `at` on.
fn stripe(table: &[u32], at: usize, i: usize) -> Stripe
    requires { (i ≤ 28) × (at + 32 ≤ length table.now) }
    ensures { result ≡ four (λ j. get_or table.now (at + j) 0) i }
{
    [
        table[at + i],
        table[at + (i + 1)],
        table[at + (i + 2)],
        table[at + (i + 3)],
    ]
}

// Writes four words from word `at` on.
fn put_stripe(table: &mut [u32], at: usize, x: Stripe)
    requires { at + 4 ≤ length table.old }
    ensures { table.new ≡ written table.old at x 4 }
{
    bitrows::put_rows(table, at, &x, 4);
}

// One step of four rows, from those above, themselves and those below, into a mask.
fn lanes(over: Stripe, here: Stripe, under: Stripe, mask: Stripe) -> Stripe
    ensures { result ≡ lanes_of over here under mask }
{
    [
        bitrows::successor_row(over[0], here[0], under[0], mask[0]),
        bitrows::successor_row(over[1], here[1], under[1], mask[1]),
        bitrows::successor_row(over[2], here[2], under[2], mask[2]),
        bitrows::successor_row(over[3], here[3], under[3], mask[3]),
    ]
}

// The 32 words from word `at` on.
pub fn load(table: &[u32], at: usize) -> Stripes
    requires { at + 32 ≤ length table.now }
    ensures { result ≡ stripes_of (λ j. get_or table.now (at + j) 0) }
{
    [
        stripe(table, at, 0),
        stripe(table, at, 4),
        stripe(table, at, 8),
        stripe(table, at, 12),
        stripe(table, at, 16),
        stripe(table, at, 20),
        stripe(table, at, 24),
        stripe(table, at, 28),
    ]
}

// Writes the stripes from word `at` on.
pub fn save(table: &mut [u32], at: usize, x: Stripes)
    requires { at + 32 ≤ length table.old }
    ensures { (words : ℕ → ℕ) → x ≡ stripes_of words → Rewritten table.old words at 32 table.new }
{
    for i in 0..8 {
        put_stripe(table, at + 4 * i, x[i]);
    }
}

// One step of a whole set into masks. `none` is the row above the first and below the last, which are empty: were it the number 0 in the
// code, the compiler would take these two rows out of their stripes.
pub fn advance(x: Stripes, masks: Stripes, none: u32) -> Stripes
    requires { none ≡ 0 }
    ensures { (words free : ℕ → ℕ) → x ≡ stripes_of words → masks ≡ stripes_of free →
        result ≡ stripes_of (step_word words free) }
{
    let above = [none, x[7][0], x[7][1], x[7][2]];
    let below = [x[0][1], x[0][2], x[0][3], none];
    [
        lanes(above, x[0], x[1], masks[0]),
        lanes(x[0], x[1], x[2], masks[1]),
        lanes(x[1], x[2], x[3], masks[2]),
        lanes(x[2], x[3], x[4], masks[3]),
        lanes(x[3], x[4], x[5], masks[4]),
        lanes(x[4], x[5], x[6], masks[5]),
        lanes(x[5], x[6], x[7], masks[6]),
        lanes(x[6], x[7], below, masks[7]),
    ]
}
