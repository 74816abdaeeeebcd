ghost use Rattle.std.specs.Prelude.{◌≡◌, ◌++◌, ◌∷◌, [], IfOk};
ghost use Rattle.gp_story.specs.Folding.{after_line, goes_on, with_group};
ghost use Rattle.gp_story.specs.Parts.{is_quiet, part_of, parts_of, stand_together};

use crate::story::{Part, StoryLine};
use gp_base::Row;
use std::alloc::{AllocError, Global};

/// The parts so far, and behind them a group of lines that may still grow.
#[derive(Drop)]
pub struct Folding {
    parts: Row<Part>,
    group: Row<StoryLine>,
}

/// Folds neighbouring quiet lines of one thread.
pub fn fold(alloc: Global, lines: &[StoryLine]) -> Result<Row<Part>, AllocError>
    ensures { IfOk result (λ parts. parts ≡ parts_of lines.now) }
{
    let mut folding = Folding {
        parts: Row::new(alloc),
        group: Row::new(alloc),
    };
    for line in lines {
        folding = folding.add(alloc, *line)?;
    }
    folding.close()
}

impl Folding {
    /// With one line more, which goes on with the last group or begins another one.
    fn add(self, alloc: Global, line: StoryLine) -> Result<Folding, AllocError>
        ensures { IfOk result (λ next. next ≡ after_line self line) }
    {
        if goes_on(self.group.as_slice(), &line) {
            return self.grow(line);
        }
        self.begin(alloc, line)
    }

    fn grow(self, line: StoryLine) -> Result<Folding, AllocError>
        ensures { IfOk result (λ next. next ≡ record { parts = self.parts; group = self.group ++ line ∷ [] }) }
    {
        let Folding { parts, mut group } = self;
        group.push(line)?;
        Ok(Folding { parts, group })
    }

    fn begin(self, alloc: Global, line: StoryLine) -> Result<Folding, AllocError>
        ensures { IfOk result (λ next. next ≡ record { parts = with_group self.parts self.group; group = line ∷ [] }) }
    {
        let parts = self.close()?;
        let mut group = Row::new(alloc);
        group.push(line)?;
        Ok(Folding { parts, group })
    }

    /// The parts with the last group as one.
    fn close(self) -> Result<Row<Part>, AllocError>
        ensures { IfOk result (λ parts. parts ≡ with_group self.parts self.group) }
    {
        let Folding { mut parts, group } = self;
        if group.is_empty() {
            return Ok(parts);
        }
        parts.push(part_of(group))?;
        Ok(parts)
    }
}

fn part_of(lines: Row<StoryLine>) -> Part
    ensures { result ≡ part_of lines }
{
    match lines.as_slice() {
        [line] => Part::Single(*line),
        [] | [_, _, ..] => Part::Run(lines),
    }
}

/// Whether a line stands together with the last of these.
fn goes_on(lines: &[StoryLine], line: &StoryLine) -> bool
    ensures { result ≡ goes_on lines.now line.now }
{
    match lines.last() {
        Some(last) => stand_together(last, line),
        None => false,
    }
}

fn stand_together(one: &StoryLine, other: &StoryLine) -> bool
    ensures { result ≡ stand_together one.now other.now }
{
    is_quiet(one) && is_quiet(other) && one.event.thread == other.event.thread
}

fn is_quiet(line: &StoryLine) -> bool
    ensures { result ≡ is_quiet line.now }
{
    !line.is_marked && !line.is_shared && line.started_by.is_none()
}
