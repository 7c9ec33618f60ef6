// The answer word: what is done, with a case and a number, or a refusal with its place, packed into one number.
ghost use Rattle.std.specs.Prelude.{◌≡◌, ◌≤◌};
ghost use Rattle.floor.specs.Answers.{verdict_of};
ghost use Rattle.laws.specs.Verdict.{value, refusal, refused, ◌then◌, ◌gives◌};
ghost use Rattle.abi.specs.Word.{packed as packedAs, word_of, of_number, done};

use floor::Refusal;

// The largest number or place that a word has room for, 2^48 − 1.
const LARGEST: u64 = 281474976710655;

// A word of its parts: the low byte, the next byte and the rest.
fn packed(low: u64, second: u16, rest: usize) -> u64
    requires { low ≤ 1 }
    ensures { result ≡ packedAs low second rest }
{
    low + 256 * (second as u64).min(255) + 65536 * (rest as u64).min(LARGEST)
}

// The word of what is done: a case and a number.
pub fn done(case: u16, n: usize) -> u64
    ensures { result ≡ word_of (value (done case n)) }
{
    packed(0, case, n)
}

// The word of a refusal: its number and its place.
pub fn refused(number: u16, place: usize) -> u64
    ensures { result ≡ word_of (refusal number place) }
{
    packed(1, number, place)
}

// The word of memory that is too short: 9, 0.
pub fn too_short() -> u64
    ensures { result ≡ word_of (refusal 9 0) }
{
    packed(1, 9, 0)
}

// The word of a check, with a number where it passes.
pub fn of_check(x: Result<(), Refusal>, n: usize) -> u64
    ensures { result ≡ word_of (of_number (verdict_of x gives n)) }
{
    match x {
        Ok(()) => done(0, n),
        Err(r) => refused(r.number(), r.place),
    }
}

// The word of a check where the memory for what is answered is too short: its refusal, and 9 if it has none.
pub fn of_check_in_short(x: Result<(), Refusal>) -> u64
    ensures { result ≡ word_of (of_number ((verdict_of x then refused 9 0) gives 0)) }
{
    match x {
        Ok(()) => too_short(),
        Err(r) => refused(r.number(), r.place),
    }
}
