// What came of a command: what an entry answered or a comparison said, or a plain number; compared, and shown in words.
use floor::{Reason, Refusal};
use std::io;
use std::io::Write;
use testkit::show;

// What came of a command.
#[derive(Clone, Copy, PartialEq, Eq)]
pub enum Answer {
    // A plain number.
    Plain(usize),
    // A refusal.
    Refused(Refusal),
    // Of a run, with the number taken.
    Silent(usize),
    Spent(usize),
    Ended(usize),
    // Of a plan, with the failing carrier, 0 where all have routes.
    Failing(usize),
    // Of the ceiling, with the most steps; of a trial, with the steps taken.
    Steps(usize),
    // Of printed routes, with the number of bytes.
    Printed(usize),
    // Of a check.
    Passed,
    // Of a sheet that was read and written again.
    Written,
    // Of a step.
    Kept,
    Sent,
    Delivered,
    // Of a comparison.
    Same,
    Otherwise,
    // Nothing is left to show.
    Shown,
}

// What an entry answered: a refusal, or what is made of its value.
pub fn answered<T: Drop, F: FnOnce(T) -> Answer>(came: Result<T, Refusal>, made: F) -> Answer
    requires { (x : T) → F.pre made x }
{
    match came {
        Ok(x) => made(x),
        Err(r) => Answer::Refused(r),
    }
}

// What a check answered.
pub fn checked(came: Result<(), Refusal>) -> Answer {
    match came {
        Ok(()) => Answer::Passed,
        Err(r) => Answer::Refused(r),
    }
}

// Whether a refusal names what step x waits for: of a plan, 100 and its carrier, 8 with 0, or 13 with a carrier below; of a delivery, 200,
// ten times its sender and its addressee, 12 with that. Of no other number.
pub fn waits(x: usize, refusal: Refusal) -> bool {
    match refusal.reason {
        Reason::NotDue => x / 100 == 1 && refusal.place == 0,
        Reason::NothingSent => x / 100 == 2 && refusal.place == x % 10,
        Reason::ChannelFull => x / 100 == 1 && x % 10 < refusal.place,
        _ => false,
    }
}

impl Answer {
    // The answer where all is as it must be, and otherwise that it is not.
    pub fn only_if(self, good: bool) -> Answer {
        if good { self } else { Answer::Otherwise }
    }

    // Its word.
    fn word(self) -> &'static [u8] {
        match self {
            Answer::Plain(_) | Answer::Shown => b"",
            Answer::Refused(_) => b" refused",
            Answer::Silent(_) => b" silent",
            Answer::Spent(_) => b" spent",
            Answer::Ended(_) => b" ended",
            Answer::Failing(_) => b" failing carrier",
            Answer::Steps(_) => b" steps",
            Answer::Printed(_) => b" printed",
            Answer::Passed => b" passed",
            Answer::Written => b" passed, written the same",
            Answer::Kept => b" kept",
            Answer::Sent => b" sent",
            Answer::Delivered => b" delivered",
            Answer::Same => b" the same",
            Answer::Otherwise => b" OTHERWISE",
        }
    }

    // Shows its word, and what comes with it: a refusal's number and place, the number taken, the failing carrier, the most steps, the
    // number of bytes, or the plain number.
    pub fn show<W: Write>(self, out: &mut W) -> io::Result<()> {
        show::text(out, self.word())?;
        match self {
            Answer::Refused(r) => {
                show::number(out, usize::from(r.number()))?;
                show::number(out, r.place)
            }
            Answer::Plain(n)
            | Answer::Silent(n)
            | Answer::Spent(n)
            | Answer::Ended(n)
            | Answer::Failing(n)
            | Answer::Steps(n)
            | Answer::Printed(n) => show::number(out, n),
            _ => Ok(()),
        }
    }
}

// What a comparison says.
pub fn compared(good: bool) -> Answer {
    Answer::Same.only_if(good)
}
