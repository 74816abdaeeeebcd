ghost use Rattle.std.specs.Prelude.{◌≡◌, ◌+◌, [], ◌∷◌, IfOk};
ghost use Rattle.gp_linked.specs.Tally.{tally_of, with_links};

use crate::answer::LinkAnswer;
use std::alloc::AllocError;

// How many windows are linked, unlinkable, undecided and too large.
#[derive(Clone, Copy)]
pub(crate) struct Tally {
    pub(crate) linked: u64,
    pub(crate) unlinkable: u64,
    pub(crate) undecided: u64,
    pub(crate) too_large: u64,
}

// Counts the answers. More than 2^64 - 1 of a kind would not fit into memory.
pub(crate) fn tally_of(links: &[LinkAnswer]) -> Result<Tally, AllocError>
    ensures { IfOk result (λ tally. tally ≡ tally_of links.now) }
{
    let none = Tally {
        linked: 0,
        unlinkable: 0,
        undecided: 0,
        too_large: 0,
    };
    with_links(none, links)
}

fn with_links(tally: Tally, links: &[LinkAnswer]) -> Result<Tally, AllocError>
    ensures { IfOk result (λ new. new ≡ with_links tally links.now) }
{
    let mut tally = tally;
    for link in links {
        tally = with_link(tally, link)?;
    }
    Ok(tally)
}

fn with_link(tally: Tally, link: &LinkAnswer) -> Result<Tally, AllocError>
    ensures { IfOk result (λ new. new ≡ with_links tally (link.now ∷ [])) }
{
    match link {
        LinkAnswer::Linked(_) => Ok(Tally {
            linked: more(tally.linked)?,
            ..tally
        }),
        LinkAnswer::Unlinkable(_) => Ok(Tally {
            unlinkable: more(tally.unlinkable)?,
            ..tally
        }),
        LinkAnswer::Undecided { .. } => Ok(Tally {
            undecided: more(tally.undecided)?,
            ..tally
        }),
        LinkAnswer::TooLarge { .. } => Ok(Tally {
            too_large: more(tally.too_large)?,
            ..tally
        }),
    }
}

fn more(count: u64) -> Result<u64, AllocError>
    ensures { IfOk result (λ next. next ≡ count + 1) }
{
    count.checked_add(1).ok_or(AllocError)
}
