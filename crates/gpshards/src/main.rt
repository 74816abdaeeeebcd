// The program: it hands the words, real files and standard output to `shards`, and ends with the status. Nothing that matters is done here.
#![tactic(auto)]

ghost use Rattle.std.specs.Prelude.{◌≡◌};
ghost use Rattle.std.specs.Process.{exit_status};

use gp_outside::{DirFolder, StdSink};
use gp_predict::Outcome;
use gp_shards::shards;
use std::env;
use std::io::{self, ErrorKind};
use std::process::ExitCode;

/// The status for want of memory, where there is none for the words.
const NO_MEMORY: u8 = 6;

fn main(rt: HostRuntime) -> ExitCode {
    let words = match words(&rt) {
        Ok(words) => words,
        // A word that is no text is none of the words that `shards` knows, and so refused like them.
        Err(error) if error.kind() == ErrorKind::InvalidData => Vec::new(rt.alloc()),
        Err(_) => return ExitCode::from(NO_MEMORY),
    };
    let mut folder = DirFolder::new(rt);
    let mut sink = StdSink::new(rt);
    let outcome = shards(&rt, words.as_slice(), &mut folder, &mut sink);
    let code = exit_code(&outcome);
    drop((outcome, words));
    code
}

/// What the process ends with: the status of the outcome.
fn exit_code(outcome: &Outcome) -> ExitCode
    ensures { exit_status result ≡ outcome.now.status }
{
    ExitCode::from(outcome.status)
}

/// The words after the program's name.
fn words(rt: &HostRuntime) -> io::Result<Vec<String>> {
    let words = env::args(rt)?.skip(1).collect(rt.alloc())?;
    Ok(words)
}
