// The program's arguments: their bytes, how many there are, and the decimal numbers that they are.
ghost use Rattle.std.specs.Prelude.{◌≡◌, true, ◌+◌, ◌-◌, ◌*◌, ◌≤◌, min, length};
ghost use Rattle.io.specs.Counts.{IsPrefixLen};
ghost use Rattle.desk.specs.Arguments.{is_digit, all_digits, value_in, ReadsDecimal};

use std::env::{Env, FillError};

// 2^32, the number above which none is told apart.
const LARGE: u64 = 4294967296;

// The bytes of an argument, in front of a buffer; none where it is missing or longer than the buffer.
pub fn argument_bytes<A: Env>(given: &A, i: usize, buf: &mut [u8]) -> usize
    ensures { IsPrefixLen result buf.new }
{
    given.arg(i, buf).unwrap_or(0)
}

// The number of arguments, the program's name included.
pub fn argument_count<A: Env>(given: &A) -> usize {
    let mut none = [0u8; 1];
    for i in 0..usize::MAX {
        if let Err(FillError::NotPresent) = given.arg(i, &mut none) {
            return i;
        }
    }
    usize::MAX
}

// An argument as a number; one that is missing or longer than the buffer is none.
pub fn argument<A: Env>(given: &A, i: usize) -> Option<u64> {
    let mut buf = io::buffer();
    let n = argument_bytes(given, i, &mut buf);
    read_decimal(&buf[..n])
}

// Whether every byte of a text is a decimal digit.
fn all_digits(text: &[u8]) -> bool
    ensures { result ≡ all_digits text.now }
{
    text.iter().all(|byte| byte.is_ascii_digit())
}

// A number with one more digit behind it.
fn with_digit(x: u64, byte: u8) -> u64
    requires { (x ≤ 4294967296) × (is_digit byte ≡ true) }
    ensures { result ≡ min 4294967296 (10 * x + (byte - 48)) }
{
    LARGE.min(10 * x + u64::from(byte - b'0'))
}

// The number that digits write.
fn value(text: &[u8]) -> u64
    requires { all_digits text.now ≡ true }
    ensures { result ≡ min 4294967296 (value_in text.now (length text.now)) }
{
    let mut x = 0;
    for byte in text {
        x = with_digit(x, *byte);
    }
    x
}

// The number that a text is in decimal digits, one above 2^32 as that; none for any other text.
pub fn read_decimal(text: &[u8]) -> Option<u64>
    ensures { ReadsDecimal text.now result }
{
    if text.is_empty() || !all_digits(text) {
        return None;
    }
    Some(value(text))
}
