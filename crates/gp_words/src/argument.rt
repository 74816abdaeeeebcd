ghost use Rattle.std.specs.Prelude.{◌≡◌};
ghost use Rattle.gp_words.specs.Argument.{gpredict_option, gpshards_option, gpshow_option, option_named};

/// Whose command line it is.
#[derive(Clone, Copy, PartialEq, Eq)]
pub enum Program {
    Gpredict,
    Gpshow,
    Gpshards,
}

/// What the words of a command line may give: the values of seven options of gpredict, of seven of gpshow or of three of gpshards,
/// and folders.
#[derive(Clone, Copy, PartialEq, Eq)]
pub enum Argument {
    Task,
    Workers,
    Budget,
    Report,
    Seed,
    Threads,
    Events,
    As,
    Source,
    Window,
    Property,
    Instance,
    Answer,
    Most,
    Part,
    Of,
    /// A plain word: the one of gpredict and of gpshow, and each of gpshards.
    Folder,
}

/// The option of a program that has this name, which stands with its two hyphens.
pub fn option_named(program: Program, name: &str) -> Option<Argument>
    ensures { result ≡ option_named program name.now }
{
    match program {
        Program::Gpredict => gpredict_option(name),
        Program::Gpshow => gpshow_option(name),
        Program::Gpshards => gpshards_option(name),
    }
}

fn gpredict_option(name: &str) -> Option<Argument>
    ensures { result ≡ gpredict_option name.now }
{
    match name {
        "--task" => Some(Argument::Task),
        "--workers" => Some(Argument::Workers),
        "--budget" => Some(Argument::Budget),
        "--report" => Some(Argument::Report),
        "--seed" => Some(Argument::Seed),
        "--threads" => Some(Argument::Threads),
        "--events" => Some(Argument::Events),
        _ => None,
    }
}

fn gpshow_option(name: &str) -> Option<Argument>
    ensures { result ≡ gpshow_option name.now }
{
    match name {
        "--as" => Some(Argument::As),
        "--source" => Some(Argument::Source),
        "--window" => Some(Argument::Window),
        "--property" => Some(Argument::Property),
        "--instance" => Some(Argument::Instance),
        "--answer" => Some(Argument::Answer),
        "--most" => Some(Argument::Most),
        _ => None,
    }
}

fn gpshards_option(name: &str) -> Option<Argument>
    ensures { result ≡ gpshards_option name.now }
{
    match name {
        "--task" => Some(Argument::Task),
        "--part" => Some(Argument::Part),
        "--of" => Some(Argument::Of),
        _ => None,
    }
}
