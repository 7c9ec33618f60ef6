// The program `desk`: tools over a sheet from standard input, each a command named by the first argument. What is wrong with an
// argument or a command is said in words on standard error.
#![tactic(auto)]

mod arguments;
mod command;
mod listed;
mod played;
mod texts;

ghost use Rattle.std.specs.Prelude.{◌≡◌, min};

use arguments::{argument, argument_bytes, argument_count};
use command::Command;

// An order, a carrier or a beat as the tools take it: every number above 65,535 is as little one as that.
fn number_of(n: u64) -> u16
    ensures { result ≡ min n 65535 }
{
    n.min(65535) as u16
}

// The arguments of `trial`: the order, and the seed, 0 where it is left out.
fn trial_arguments(rt: &HostRuntime, count: usize) -> Option<(u16, u32)> {
    let order = argument(rt, 2)?;
    let seed = if count < 4 { 0 } else { argument(rt, 3)? };
    Some((number_of(order), u32::try_from(seed).ok()?))
}

// The arguments of `meeting`: two carriers.
fn meeting_arguments(rt: &HostRuntime) -> Option<(u16, u16)> {
    let i = argument(rt, 2)?;
    let j = argument(rt, 3)?;
    if i == j {
        return None;
    }
    Some((number_of(i), number_of(j)))
}

// The argument of `runs` or `draw`, which may be left out.
fn last_argument(rt: &HostRuntime, count: usize) -> Option<Option<u64>> {
    if count < 3 {
        return Some(None);
    }
    Some(Some(argument(rt, 2)?))
}

// Runs a command; none, and nothing is done, where its arguments are not as it takes them.
fn run(rt: &HostRuntime, command: Command) -> Option<()> {
    let count = argument_count(rt);
    if !command.takes(count) {
        return None;
    }
    let reader = &mut rt.stdin();
    let writer = &mut rt.stdout();
    let errors = &mut rt.stderr();
    // What failed is said.
    let _ = match command {
        Command::Trial => {
            let (order, seed) = trial_arguments(rt, count)?;
            texts::play(reader, writer, errors, order, seed)
        }
        Command::Runs => listed::list_input(reader, writer, errors, last_argument(rt, count)?),
        Command::Meeting => {
            let (i, j) = meeting_arguments(rt)?;
            texts::meet(reader, writer, errors, i, j)
        }
        Command::Blockers => texts::show_stranded(reader, writer, errors),
        Command::Draw => match last_argument(rt, count)? {
            Some(beat) => texts::draw_beat(reader, writer, errors, number_of(beat)),
            None => texts::draw_all(reader, writer, errors),
        },
        Command::Sheet => texts::print_sheet(reader, writer, errors),
        Command::Why => texts::explain(reader, writer, errors),
        Command::Picture => texts::show_picture(reader, writer, errors),
    };
    Some(())
}

fn main(rt: HostRuntime) {
    let mut name = io::buffer();
    let n = argument_bytes(&rt, 1, &mut name);
    match Command::named(&name[..n]) {
        Some(command) => {
            if run(&rt, command).is_none() {
                let _ = rt.eprintln(command.usage());
            }
        }
        None => command::say_commands(&rt),
    }
}
