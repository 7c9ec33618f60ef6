// The commands: their names, and how each is called.
// The commands.
#[derive(Clone, Copy)]
pub enum Command {
    // `trial ORDER [SEED]`: plays a trial and prints its report and the routes.
    Trial,
    // `runs [RANK]`: prints the number of complete runs, then the run of that rank, or all.
    Runs,
    // `meeting I J`: prints where the best routes of two carriers, each against nobody, meet.
    Meeting,
    // `blockers`: prints who shuts each stranded carrier in.
    Blockers,
    // `draw [BEAT]`: draws the floor with its carriers at that beat, or at all with its map and the arrivals.
    Draw,
    // `sheet`: prints the sheet of a map.
    Sheet,
    // `why`: prints why the sheet is refused, in words.
    Why,
    // `picture`: prints the floor and its routes as an SVG that moves.
    Picture,
}

impl Command {
    // The command of a name.
    pub fn named(name: &[u8]) -> Option<Command> {
        match name {
            b"trial" => Some(Command::Trial),
            b"runs" => Some(Command::Runs),
            b"meeting" => Some(Command::Meeting),
            b"blockers" => Some(Command::Blockers),
            b"draw" => Some(Command::Draw),
            b"sheet" => Some(Command::Sheet),
            b"why" => Some(Command::Why),
            b"picture" => Some(Command::Picture),
            _ => None,
        }
    }

    // Whether the command takes so many arguments, the program's name and its own included.
    pub fn takes(self, count: usize) -> bool {
        match self {
            Command::Trial => count <= 4,
            Command::Runs | Command::Draw => count <= 3,
            Command::Meeting => count == 4,
            Command::Blockers | Command::Sheet | Command::Why | Command::Picture => count == 2,
        }
    }

    // How the command is called.
    pub fn usage(self) -> &'static str {
        match self {
            Command::Trial => "desk: trial ORDER [SEED] < sheet",
            Command::Runs => "desk: runs [RANK] < sheet",
            Command::Meeting => "desk: meeting I J < sheet, I and J two carriers",
            Command::Blockers => "desk: blockers < sheet",
            Command::Draw => "desk: draw [BEAT] < sheet",
            Command::Sheet => "desk: sheet < map",
            Command::Why => "desk: why < sheet",
            Command::Picture => "desk: picture < sheet > floor.svg",
        }
    }
}

// What is said where there is no command of a name, a line each.
const COMMANDS: [&str; 9] = [
    "desk: no such command; the commands, each with its input on standard input:",
    "  trial ORDER [SEED]  play a trial, and print its steps and the routes",
    "  runs [RANK]         list the complete runs, or the one of a rank",
    "  meeting I J         tell where the best routes of two carriers meet",
    "  blockers            tell who shuts each stranded carrier in",
    "  why                 tell in words why the sheet is refused",
    "  picture             draw the floor and its routes as an SVG that moves",
    "  draw [BEAT]         draw the floor with its carriers at a beat, or at all",
    "  sheet               print the sheet of a map from standard input",
];

// Says which commands there are.
pub fn say_commands(rt: &impl Eprint) {
    for line in COMMANDS {
        let _ = rt.eprintln(line);
    }
}
