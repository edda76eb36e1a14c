//! The table of commands.
ghost use Rattle.std.specs.Prelude.{◌≡◌, ◌≤◌};
ghost use Rattle.sgm_words.specs.Commands.{entry_of, is_named, command_named};

use crate::Output;

#[derive(Clone, Copy)]
pub enum Command {
    Match,
    Demo,
    Trace,
    Change,
    Merge,
}

/// A command: its name, how many operands it has, how many of them are names, which come first,
/// whether a direction comes after the names, how many are numbers, which come last, whether
/// options follow, and the outputs that are named after its last name.
#[derive(Clone, Copy)]
pub struct CommandRow {
    pub name: &'static str,
    pub operands: usize,
    pub names: usize,
    pub has_direction: bool,
    pub numbers: usize,
    pub has_options: bool,
    pub outputs: &'static [Output],
    ghost few: { operands ≤ 16 },
    ghost names_fit: { names ≤ operands },
    ghost numbers_fit: { numbers ≤ operands },
}

const COMMANDS: [Command; 5] = [
    Command::Match,
    Command::Demo,
    Command::Trace,
    Command::Change,
    Command::Merge,
];

impl Command {
    /// Its row of the table.
    pub fn row(self) -> CommandRow
        ensures name { result.name.now ≡ (entry_of self).name }
        ensures operands { result.operands ≡ (entry_of self).operands }
        ensures names { result.names ≡ (entry_of self).names }
        ensures has_direction { result.has_direction ≡ (entry_of self).has_direction }
        ensures numbers { result.numbers ≡ (entry_of self).numbers }
        ensures has_options { result.has_options ≡ (entry_of self).has_options }
        ensures outputs { result.outputs.now ≡ (entry_of self).outputs }
    {
        match self {
            Command::Match => CommandRow {
                name: "match",
                operands: 4,
                names: 4,
                has_direction: false,
                numbers: 0,
                has_options: true,
                outputs: &[Output::Disparity, Output::Heights, Output::Report],
            },
            Command::Demo => CommandRow {
                name: "demo",
                operands: 1,
                names: 0,
                has_direction: false,
                numbers: 1,
                has_options: true,
                outputs: &[],
            },
            Command::Trace => CommandRow {
                name: "trace",
                operands: 7,
                names: 3,
                has_direction: true,
                numbers: 3,
                has_options: false,
                outputs: &[],
            },
            Command::Change => CommandRow {
                name: "change",
                operands: 3,
                names: 3,
                has_direction: false,
                numbers: 0,
                has_options: false,
                outputs: &[Output::Difference, Output::Volumes],
            },
            Command::Merge => CommandRow {
                name: "merge",
                operands: 3,
                names: 3,
                has_direction: false,
                numbers: 0,
                has_options: false,
                outputs: &[Output::Heights, Output::Report],
            },
        }
    }

    // Whether this is its name.
    fn is_named(self, name: &[u8]) -> bool
        ensures { result ≡ is_named name.now self }
    {
        self.row().name.as_bytes() == name
    }

    /// The command of this name.
    #[tactic(auto, unfolding(crate::specs::Commands::command_named))]
    pub fn named(name: &[u8]) -> Option<Command>
        ensures { result ≡ command_named name.now }
    {
        COMMANDS
            .iter()
            .copied()
            .find(|command| command.is_named(name))
    }
}
