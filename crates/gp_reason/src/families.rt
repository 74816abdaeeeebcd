ghost use Rattle.std.specs.Prelude.{◌≡◌, IfOk};
ghost use Rattle.gp_reason.specs.Families.{families, family_among, family_sizes, sizes_among};

use gp_base::Row;
use gp_constraint::{BaseFamily, Encoded, family_size};
use std::alloc::{AllocError, Global};

/// How many clauses of each family a window has, in the order of the clauses.
pub(crate) fn family_sizes(
    alloc: Global,
    encoded: &Encoded,
) -> Result<Row<(BaseFamily, usize)>, AllocError>
    ensures { IfOk result (λ sizes. sizes ≡ family_sizes encoded.now) }
{
    let families = [
        BaseFamily::ProgramOrder,
        BaseFamily::Start,
        BaseFamily::Join,
        BaseFamily::Read,
        BaseFamily::Choice,
        BaseFamily::StartChoice,
        BaseFamily::Section,
        BaseFamily::HeldLock,
    ];
    sizes_among(alloc, encoded, &families)
}

fn sizes_among(
    alloc: Global,
    encoded: &Encoded,
    among: &[BaseFamily],
) -> Result<Row<(BaseFamily, usize)>, AllocError>
    ensures { IfOk result (λ sizes. sizes ≡ sizes_among encoded.now among.now) }
{
    let mut sizes = Row::new(alloc);
    for family in among {
        let size = family_size(alloc, encoded, *family)?;
        sizes.push((*family, size))?;
    }
    Ok(sizes)
}

/// The family of the clause of this number, where so many clauses of one family stand before those of the next.
pub(crate) fn family_among(sizes: &[(BaseFamily, usize)], number: usize) -> Option<BaseFamily>
    ensures { result ≡ family_among sizes.now number }
{
    let mut rest = number;
    for (family, size) in sizes {
        if rest < *size {
            return Some(*family);
        }
        rest -= *size;
    }
    None
}
