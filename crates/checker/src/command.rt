// The commands: the word of each, and how many arguments it takes.

// Which sides of a composed verdict are unwritten, and known by their properties only.
#[derive(Clone, Copy)]
pub enum Unwritten {
    Second,
    Both,
}

// A command whose first file may be long: a file of deliveries, or a listing of one.
#[derive(Clone, Copy)]
pub enum Long {
    Assemble,
    JudgeDeliveries,
    Text,
    Pack,
}

#[derive(Clone, Copy)]
pub enum Command {
    Judge,
    Compare,
    Model,
    Join,
    Show,
    Watch,
    Compose(Unwritten),
    Long(Long),
    Dot,
    DotTrail,
    DotSheet,
}

impl Command {
    // The command of this word with so many arguments given, which tell whether `dot` has a trail.
    pub fn of(word: &[u8], given: usize) -> Option<Command> {
        Some(match word {
            b"judge" => Command::Judge,
            b"compare" => Command::Compare,
            b"model" => Command::Model,
            b"join" => Command::Join,
            b"show" => Command::Show,
            b"watch" => Command::Watch,
            b"compose" => Command::Compose(Unwritten::Second),
            b"compose-both" => Command::Compose(Unwritten::Both),
            b"assemble" => Command::Long(Long::Assemble),
            b"judge-deliveries" => Command::Long(Long::JudgeDeliveries),
            b"text" => Command::Long(Long::Text),
            b"pack" => Command::Long(Long::Pack),
            b"dot" if given == 2 => Command::DotTrail,
            b"dot" => Command::Dot,
            b"dot-sheet" => Command::DotSheet,
            _ => return None,
        })
    }

    // How many arguments it takes.
    pub fn arguments(self) -> usize {
        match self {
            Command::Long(Long::Assemble | Long::Text | Long::Pack) | Command::Dot => 1,
            Command::Judge | Command::Compare | Command::Model => 2,
            Command::Long(Long::JudgeDeliveries) => 2,
            Command::DotTrail | Command::DotSheet => 2,
            Command::Show => 3,
            Command::Join | Command::Watch => 4,
            Command::Compose(_) => 6,
        }
    }
}
