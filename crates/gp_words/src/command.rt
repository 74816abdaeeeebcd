ghost use Rattle.std.specs.Prelude.{◌≡◌, IfSome, map, option_map, string_bytes};
ghost use Rattle.gp_words.specs.Showing.{folder_asked};
ghost use Rattle.gp_words.specs.Command.{IsInRanges, command_of, folder_of, form_of, is_folder, task_of};

use crate::argument::{Argument, Program};
use crate::number::{Setting, number, seed};
use crate::task::{Task, task_named};
use crate::value::value_of;

/// The most bytes of a folder's name.
const LONGEST_FOLDER: usize = 4096;

const WORKERS: Setting = Setting {
    option: Argument::Workers,
    low: 1,
    high: 16,
    usual: 4,
};

const BUDGET: Setting = Setting {
    option: Argument::Budget,
    low: 1,
    high: 1_000_000,
    usual: 200,
};

const REPORT: Setting = Setting {
    option: Argument::Report,
    low: 1,
    high: 2,
    usual: 1,
};

const THREADS: Setting = Setting {
    option: Argument::Threads,
    low: 1,
    high: 64,
    usual: 4,
};

const EVENTS: Setting = Setting {
    option: Argument::Events,
    low: 1,
    high: 100_000,
    usual: 600,
};

/// What the words of a command line of gpredict ask for.
#[derive(Clone, Copy, PartialEq, Eq)]
pub struct Command<'a> {
    pub task: Task,
    /// The folder that holds the files.
    pub folder: &'a str,
    /// How many workers share the instances of a window.
    pub workers: u32,
    /// How many clauses the query of an instance may learn.
    pub budget: u64,
    /// The format in which a report is printed.
    pub format: u32,
    /// The seed of a recording that is made.
    pub seed: u64,
    /// How many threads it has.
    pub threads: u32,
    /// How many events it has.
    pub events: u32,
}

/// The command that the words are. It is `None` exactly where they are refused.
pub fn command_of(words: &[String]) -> Option<Command<'_>>
    ensures due { option_map form_of result ≡ command_of (map string_bytes words.now) }
    ensures within { IfSome result (λ command. IsInRanges (form_of command)) }
{
    Some(Command {
        task: task_of(words)?,
        folder: folder_of(words, Program::Gpredict)?,
        workers: number(words, Program::Gpredict, WORKERS)?,
        budget: u64::from(number(words, Program::Gpredict, BUDGET)?),
        format: number(words, Program::Gpredict, REPORT)?,
        seed: seed(words)?,
        threads: number(words, Program::Gpredict, THREADS)?,
        events: number(words, Program::Gpredict, EVENTS)?,
    })
}

fn task_of(words: &[String]) -> Option<Task>
    ensures { result ≡ task_of (map string_bytes words.now) }
{
    task_named(value_of(words, Program::Gpredict, Argument::Task)??)
}

/// The folder, which must be given.
pub fn folder_of(words: &[String], program: Program) -> Option<&str>
    ensures { option_map (λ folder. folder.now) result ≡ folder_of program (map string_bytes words.now) }
{
    value_of(words, program, Argument::Folder)?.filter(|name| is_folder(name))
}

/// The folder that an option names, where it is given.
pub fn folder_asked(words: &[String], program: Program, option: Argument) -> Option<Option<&str>>
    ensures { option_map (λ folder. option_map (λ name. name.now) folder) result ≡ folder_asked program option (map string_bytes words.now) }
{
    match value_of(words, program, option)? {
        None => Some(None),
        Some(name) => is_folder(name).then_some(Some(name)),
    }
}

/// Whether a folder may have this name.
pub fn is_folder(name: &str) -> bool
    ensures { result ≡ is_folder name.now }
{
    !name.is_empty() && name.len() <= LONGEST_FOLDER && name != "-"
}
