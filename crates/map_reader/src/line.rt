// A line of a map.
ghost use Rattle.std.specs.Prelude.{◌+◌, ◌≤◌, ◌<◌, length};

// A line of a text: the column at which it begins, before the text's end, and its number.
#[derive(Clone, Copy)]
pub struct Line<'a> {
    pub text: &'a [u8],
    pub at: usize,
    pub number: u16,
    ghost begins: { at < length text.now },
}

impl<'a> Line<'a> {
    // The column of its newline, looked for in 33 bytes; the last column looked at where it is not there.
    pub fn end(&self) -> usize
        ensures { (self.now.at ≤ result) × (result ≤ length self.now.text.now) × (result ≤ self.now.at + 33) }
    {
        let n = (self.text.len() - self.at).min(33);
        let seen = &self.text[self.at..self.at + n];
        self.at + seen.iter().position(|b| *b == b'\n').unwrap_or(n)
    }

    // Whether it is that of a letter: its second byte is a space.
    pub fn is_letters(&self) -> bool {
        self.text.len() - self.at >= 2
            && self.text[self.at] != b'\n'
            && self.text[self.at + 1] == b' '
    }
}
