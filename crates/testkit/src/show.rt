// Printing, to any writer.
ghost use Rattle.std.specs.Prelude.{OnOk, ◌∷◌, decimal};
ghost use Rattle.std.specs.Io.KnownBytes.{Appends};

use std::io;
use std::io::Write;

// A text.
pub fn text<W: Write>(out: &mut W, bytes: &[u8]) -> io::Result<()>
    ensures { OnOk result (Appends (W.contents out.old) (W.contents out.new) bytes.now) }
{
    out.write_all(bytes)
}

// A number, with a space before it.
pub fn number<W: Write>(out: &mut W, n: usize) -> io::Result<()>
    ensures { OnOk result (Appends (W.contents out.old) (W.contents out.new) (32 ∷ decimal n)) }
{
    write!(out, " {n}")
}

// The numbers of a memory.
pub fn numbers<W: Write>(out: &mut W, m: &[u16]) -> io::Result<()> {
    for x in m {
        number(out, usize::from(*x))?;
    }
    Ok(())
}
