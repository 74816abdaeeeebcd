ghost use Rattle.std.specs.Prelude.{◌≡◌, ◌++◌, OnOk, codes, decimal};
ghost use Rattle.std.specs.List.{flat_map};
ghost use Rattle.gp_tell.specs.FactText.{any_text, fact_text, or_fact};
ghost use Rattle.gp_tell.specs.Naming.{name_by};

use crate::naming::{Naming, put_name};
use gp_reason::Fact;
use gp_text::print_u64;
use gp_window::EventId;
use std::alloc::AllocError;

/// Puts that one of these facts holds.
pub fn put_any(text: &mut Vec<u8>, naming: &Naming<'_>, facts: &[Fact]) -> Result<(), AllocError>
    ensures { OnOk result (text.new.items ≡ text.old.items ++ any_text (name_by naming.now) facts.now) }
{
    let Some((first, others)) = facts.split_first() else {
        return text.extend_from_slice(b"a contradiction");
    };
    put_fact(text, naming, first)?;
    put_others(text, naming, others)
}

fn put_others(text: &mut Vec<u8>, naming: &Naming<'_>, facts: &[Fact]) -> Result<(), AllocError>
    ensures { OnOk result (text.new.items ≡ text.old.items ++ flat_map (or_fact (name_by naming.now)) facts.now) }
{
    for fact in facts {
        text.extend_from_slice(b", or ")?;
        put_fact(text, naming, fact)?;
    }
    Ok(())
}

/// Puts a fact.
pub fn put_fact(text: &mut Vec<u8>, naming: &Naming<'_>, fact: &Fact) -> Result<(), AllocError>
    ensures { OnOk result (text.new.items ≡ text.old.items ++ fact_text (name_by naming.now) fact.now) }
{
    match fact {
        Fact::Executed(event) => put_one(text, naming, *event, b" is executed"),
        Fact::NotExecuted(event) => put_one(text, naming, *event, b" is not executed"),
        Fact::Before(one, other) => put_two(text, naming, *one, b" is before ", *other),
        Fact::Sees(read, write) => put_two(text, naming, *read, b" sees ", *write),
        Fact::NotSees(read, write) => put_two(text, naming, *read, b" does not see ", *write),
        Fact::SeesStart(read) => put_one(text, naming, *read, b" sees the beginning"),
        Fact::NotSeesStart(read) => put_one(text, naming, *read, b" does not see the beginning"),
        Fact::SectionBefore(one, other) => put_sections(text, naming, *one, *other),
        Fact::Last(write) => put_one(text, naming, *write, b" is the last write"),
        Fact::NotLast(write) => put_one(text, naming, *write, b" is not the last write"),
        Fact::Takes(wake, sent) => put_two(text, naming, *wake, b" takes the signal of ", *sent),
        Fact::NotTakes(wake, sent) => {
            put_two(text, naming, *wake, b" does not take the signal of ", *sent)
        }
        Fact::Within(one, other, width) => put_within(text, naming, *one, *other, *width),
        Fact::Beyond(one, other, width) => put_beyond(text, naming, *one, *other, *width),
        Fact::Unnamed(variable, true) => {
            put_unnamed(text, b"something without a name is true (", *variable)
        }
        Fact::Unnamed(variable, false) => {
            put_unnamed(text, b"something without a name is false (", *variable)
        }
    }
}

fn put_one(
    text: &mut Vec<u8>,
    naming: &Naming<'_>,
    event: EventId,
    says: &[u8],
) -> Result<(), AllocError>
    ensures { OnOk result (text.new.items ≡ text.old.items ++ (name_by naming.now event ++ says.now)) }
{
    put_name(text, naming, event)?;
    text.extend_from_slice(says)
}

fn put_two(
    text: &mut Vec<u8>,
    naming: &Naming<'_>,
    one: EventId,
    says: &[u8],
    other: EventId,
) -> Result<(), AllocError>
    ensures { OnOk result (text.new.items ≡ text.old.items ++ (name_by naming.now one ++ says.now ++ name_by naming.now other)) }
{
    put_one(text, naming, one, says)?;
    put_name(text, naming, other)
}

fn put_sections(
    text: &mut Vec<u8>,
    naming: &Naming<'_>,
    one: EventId,
    other: EventId,
) -> Result<(), AllocError>
    ensures { OnOk result (text.new.items ≡ text.old.items ++ fact_text (name_by naming.now) (Fact.SectionBefore one other)) }
{
    text.extend_from_slice(b"the section of ")?;
    put_two(text, naming, one, b" is before that of ", other)
}

fn put_within(
    text: &mut Vec<u8>,
    naming: &Naming<'_>,
    one: EventId,
    other: EventId,
    width: u32,
) -> Result<(), AllocError>
    ensures { OnOk result (text.new.items ≡ text.old.items ++ fact_text (name_by naming.now) (Fact.Within one other width)) }
{
    put_one(text, naming, one, b" is at most ")?;
    put_distance(text, naming, width, other)
}

fn put_beyond(
    text: &mut Vec<u8>,
    naming: &Naming<'_>,
    one: EventId,
    other: EventId,
    width: u32,
) -> Result<(), AllocError>
    ensures { OnOk result (text.new.items ≡ text.old.items ++ fact_text (name_by naming.now) (Fact.Beyond one other width)) }
{
    put_one(text, naming, one, b" is more than ")?;
    put_distance(text, naming, width, other)
}

fn put_distance(
    text: &mut Vec<u8>,
    naming: &Naming<'_>,
    width: u32,
    other: EventId,
) -> Result<(), AllocError>
    ensures { OnOk result (text.new.items ≡ text.old.items ++ (decimal width ++ codes " places behind " ++ name_by naming.now other)) }
{
    print_u64(text, u64::from(width))?;
    text.extend_from_slice(b" places behind ")?;
    put_name(text, naming, other)
}

fn put_unnamed(text: &mut Vec<u8>, says: &[u8], variable: u32) -> Result<(), AllocError>
    ensures { OnOk result (text.new.items ≡ text.old.items ++ (says.now ++ decimal variable ++ codes ")")) }
{
    text.extend_from_slice(says)?;
    print_u64(text, u64::from(variable))?;
    text.extend_from_slice(b")")
}
