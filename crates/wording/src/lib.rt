// Words and numbers put into a text, one behind the other. All but `put_decimal` answer for any column and any memory: a piece that does
// not fit is left out. Helpers of the crates that print sentences and pictures.
#![tactic(auto)]

ghost use Rattle.std.specs.Prelude.{◌≡◌, ◌+◌, ◌%◌, ◌≤◌, ◌<◌, length};
ghost use Rattle.io.specs.Counts.{IsPrefixLen};
ghost use Rattle.reporting.specs.Put.{PutAt};
ghost use Rattle.wording.specs.Decimal.{decimal, five_digits, first_digit};
ghost use Rattle.wording.specs.Puts.{PutIfRoom};

use reporting::put_bytes;

// The last digit of a number.
fn digit(n: u32) -> u8
    ensures { result ≡ 48 + n % 10 }
{
    b'0' + (n % 10) as u8
}

// The last five digits of a number, with zeros in front.
#[tactic(auto, unfolding(crate::specs::Decimal::five_digits))]
fn five_digits(n: u32) -> [u8; 5]
    ensures { (result ≡ five_digits n) × (5 ≡ length result) }
{
    [
        digit(n / 10000),
        digit(n / 1000),
        digit(n / 100),
        digit(n / 10),
        digit(n),
    ]
}

// The place among five digits of the first that is written.
#[tactic(auto, using(crate::proofs::DecimalLaws::tests_of_lt), unfolding(crate::specs::Decimal::first_digit))]
fn first_digit(n: u32) -> usize
    ensures { (result ≡ first_digit n) × (result ≤ 4) }
{
    match n {
        0..=9 => 4,
        10..=99 => 3,
        100..=999 => 2,
        1000..=9999 => 1,
        _ => 0,
    }
}

// Puts a number below 100,000 in decimal digits; the column behind it is returned.
// Kept with its column: it is the function of claim K6 (docs/CLAIMS.md), and its contract tells the bytes of the memory.
pub fn put_decimal(out: &mut [u8], at: usize, n: u32) -> usize
    requires { at + 5 ≤ length out.old }
    ensures { PutAt (decimal n) out.old at out.new result }
{
    let digits = five_digits(n);
    let k = first_digit(n);
    put_bytes(out, at, &digits[k..])
}

// The number of bytes in front of a memory that a number counts, all where it counts more.
pub fn within(n: usize, out: &[u8]) -> usize
    ensures { IsPrefixLen result out.now }
{
    n.min(out.len())
}

// A text that grows in a lent memory: what is put stands from a column on, and the column moves behind it.
#[derive(Drop)]
pub struct Text<'a> {
    pub bytes: &'a mut [u8],
    pub at: usize,
}

impl<'a> Text<'a> {
    // An empty text, in front of a memory.
    pub fn new(bytes: &'a mut [u8]) -> Text<'a>
        ensures same_memory { result.bytes.ghost_name ≡ bytes.entry.ghost_name }
        ensures empty { (result.at ≡ 0) × (result.bytes.now ≡ bytes.old) }
    {
        Text { bytes, at: 0 }
    }

    // Puts bytes, if they fit.
    pub fn put(&mut self, bytes: &[u8])
        ensures same_memory { self.new.bytes.ghost_name ≡ self.old.bytes.ghost_name }
        ensures same_length { length self.new.bytes.now ≡ length self.old.bytes.now }
        ensures puts { PutIfRoom (length bytes.now) bytes.now self.old.bytes.now self.old.at self.new.bytes.now self.new.at }
    {
        let length = self.bytes.len();
        if self.at <= length && bytes.len() <= length - self.at {
            self.at = put_bytes(self.bytes, self.at, bytes);
        }
    }

    // Puts a number, if it has at most five digits and there is room for five.
    pub fn put_number(&mut self, n: usize)
        ensures same_memory { self.new.bytes.ghost_name ≡ self.old.bytes.ghost_name }
        ensures same_length { length self.new.bytes.now ≡ length self.old.bytes.now }
        ensures puts { n < 100000 → PutIfRoom 5 (decimal n) self.old.bytes.now self.old.at self.new.bytes.now self.new.at }
        ensures leaves { 100000 ≤ n → (self.new.bytes.now ≡ self.old.bytes.now) × (self.new.at ≡ self.old.at) }
    {
        let length = self.bytes.len();
        if n <= 99999 && 5 <= length && self.at <= length - 5 {
            self.at = put_decimal(self.bytes, self.at, n as u32);
        }
    }

    // Puts a pattern, of which 4,096 bytes at most are read, with numbers in the places of its `%`, and 0 where there are no more numbers.
    pub fn fill(&mut self, pattern: &[u8], numbers: &[usize])
        ensures same_memory { self.new.bytes.ghost_name ≡ self.old.bytes.ghost_name }
        ensures same_length { length self.new.bytes.now ≡ length self.old.bytes.now }
    {
        let mut left = numbers.iter();
        for &byte in pattern.iter().take(4096) {
            if byte == b'%' {
                self.put_number(*left.next().unwrap_or(&0));
            } else {
                self.put(&[byte]);
            }
        }
    }

    // Puts how many things there are, by a sentence for one and a pattern for several.
    pub fn put_count(&mut self, n: usize, one: &[u8], several: &[u8])
        ensures same_memory { self.new.bytes.ghost_name ≡ self.old.bytes.ghost_name }
        ensures same_length { length self.new.bytes.now ≡ length self.old.bytes.now }
        ensures one { n ≡ 1 → PutIfRoom (length one.now) one.now self.old.bytes.now self.old.at self.new.bytes.now self.new.at }
    {
        if n == 1 {
            self.put(one);
        } else {
            self.fill(several, &[n]);
        }
    }
}
