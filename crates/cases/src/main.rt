// Document 01's cases through the entries, by a script on standard input: the twelve floors to try, every order of small floors, drawn
// orders of larger ones, corrupted states, the refusals in their order, sheets good and damaged, searches and plans, trials, listed runs,
// lists of docks. Each line of the script is written again; behind an arrow comes what the line's command answered. What must come out is
// the file `stdout`, in which each answer stands by its reason; `host/tests/cases.rs` has the same answers from an independent
// implementation of document 01.
//
// A line's first letter is its command, and its numbers are the arguments; all other letters are for the reader.
#![tactic(auto)]

mod all_orders;
mod calls;
mod corrupted;
mod drawn;
mod listed;
mod play;
mod states;
mod tally;
mod trials;

ghost use Rattle.std.specs.Prelude.{◌≡◌, length};

use std::io;

// Room for the script: twice a large buffer.
fn script_room() -> [u8; 131072]
    ensures { 131072 ≡ length result }
{
    [0; 131072]
}

fn main(rt: HostRuntime) -> io::Result<()> {
    let mut space = script_room();
    let read = console::read(
        &mut rt.stdin(),
        &mut rt.stderr(),
        b"cases: standard input",
        &mut space,
    );
    let Ok(n) = read else {
        return Ok(());
    };
    play::play(&mut rt.stdout(), &space[..n])
}
