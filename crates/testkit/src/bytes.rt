// Memory of bytes that is lent.
ghost use Rattle.std.specs.Prelude.{◌≡◌, length};

// What lent bytes hold before anything is written into them, and what a text has past its end: a byte that is in no text here.
pub const BLANK: u8 = b'~';

// Room for the longest text, 2,659 bytes, and some more.
pub fn page() -> [u8; 3000]
    ensures { 3000 ≡ length result }
{
    [BLANK; 3000]
}
