ghost use Rattle.std.specs.Prelude.{◌≡◌, ◌≤◌, ◌↔◌, IsTrue, option_map, nat_eq};
ghost use Rattle.std.specs.Cmp.Lexicographic.{pointwise};
ghost use Rattle.gp_resume.specs.Old.{entries_named, old_record};

use gp_report::{Entry, PropertyRecord, Report, WindowRecord};
use gp_text::Name;

// The old record of the window of this number.
pub(crate) fn old_record(old: &Report, number: u32) -> Option<&WindowRecord>
    requires { 1 ≤ number }
    ensures { option_map (λ told. told.now) result ≡ old_record old.now number }
{
    old.windows().get(number as usize - 1)
}

// The entries of the first record of a property with this name, none where there is no such record.
pub(crate) fn entries_named<'a>(name: &Name, records: &'a [PropertyRecord]) -> &'a [Entry]
    ensures { result.now ≡ entries_named name.now records.now }
{
    let mut left = records;
    while let Some((told, more)) = left.split_first() {
        if is_same_name(&told.name, name) {
            return told.body.entries();
        }
        left = more;
    }
    &[]
}

fn is_same_name(name: &Name, other: &Name) -> bool
    ensures { result ≡ pointwise nat_eq name.now other.now }
{
    *name == *other
}
