ghost use Rattle.std.specs.Prelude.{◌≡◌, ◌++◌, ◌∷◌, [], OnOk, codes, decimal};
ghost use Rattle.std.specs.Fmt.{signed_decimal};
ghost use Rattle.gp_text.specs.Spelling.{after_words};
ghost use Rattle.gp_trace.specs.Printed.{event_words};

use gp_text::{Name, print_i64};
use gp_trace::Event;
use gp_writer::{put_word, put_words};
use std::alloc::AllocError;

/// Puts the words of an event as its trace has them, behind what stands in the line.
pub fn put_event(text: &mut Vec<u8>, event: &Event) -> Result<(), AllocError>
    ensures { OnOk result (text.new.items ≡ text.old.items ++ after_words (event_words event.now)) }
{
    match event {
        Event::Read(name, value) => put_valued(text, b"read", name, *value),
        Event::Write(name, value) => put_valued(text, b"write", name, *value),
        Event::Acquire(lock) => put_named(text, b"acquire", lock),
        Event::Release(lock) => put_named(text, b"release", lock),
        Event::RAcquire(lock) => put_named(text, b"racquire", lock),
        Event::RRelease(lock) => put_named(text, b"rrelease", lock),
        Event::Start(thread) => put_numbered(text, b"start", *thread),
        Event::Join(thread) => put_numbered(text, b"join", *thread),
        Event::Op(operation) => put_op(text, operation.name(), operation.objects()),
        Event::Begin(region) => put_named(text, b"begin", region),
        Event::End(region) => put_named(text, b"end", region),
    }
}

fn put_named(text: &mut Vec<u8>, keyword: &[u8], name: &Name) -> Result<(), AllocError>
    ensures { OnOk result (text.new.items ≡ text.old.items ++ after_words (keyword.now ∷ name.now ∷ [])) }
{
    put_word(text, keyword)?;
    put_word(text, name.as_bytes())
}

fn put_numbered(text: &mut Vec<u8>, keyword: &[u8], number: u32) -> Result<(), AllocError>
    ensures { OnOk result (text.new.items ≡ text.old.items ++ after_words (keyword.now ∷ decimal number ∷ [])) }
{
    put_word(text, keyword)?;
    put_words(text, &[number])
}

fn put_valued(text: &mut Vec<u8>, keyword: &[u8], name: &Name, value: i64) -> Result<(), AllocError>
    ensures { OnOk result (text.new.items ≡ text.old.items ++ after_words (keyword.now ∷ name.now ∷ signed_decimal value ∷ [])) }
{
    put_named(text, keyword, name)?;
    text.push(b' ')?;
    print_i64(text, value)
}

fn put_op(text: &mut Vec<u8>, name: &Name, objects: &[Name]) -> Result<(), AllocError>
    ensures { OnOk result (text.new.items ≡ text.old.items ++ after_words (codes "op" ∷ name.now ∷ objects.now)) }
{
    put_named(text, b"op", name)?;
    put_objects(text, objects)
}

fn put_objects(text: &mut Vec<u8>, objects: &[Name]) -> Result<(), AllocError>
    ensures { OnOk result (text.new.items ≡ text.old.items ++ after_words objects.now) }
{
    for object in objects {
        put_word(text, object.as_bytes())?;
    }
    Ok(())
}
