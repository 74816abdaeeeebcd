ghost use Rattle.std.specs.Prelude.{◌≡◌, ◌++◌, OnOk, codes};
ghost use Rattle.gp_drawing.specs.Svg.{attribute, between, pair, point, stroke, tag, words_at};

use crate::escaped::put_escaped;
use gp_text::print_u64;
use std::alloc::AllocError;

/// Puts a line of a class from one point to another, whose tag is not ended.
pub fn put_stroke(
    text: &mut Vec<u8>,
    class: &[u8],
    x1: u64,
    y1: u64,
    x2: u64,
    y2: u64,
) -> Result<(), AllocError>
    ensures { OnOk result (text.new.items ≡ text.old.items ++ stroke class.now x1 y1 x2 y2) }
{
    put_tag(text, b"line", class)?;
    put_point(text, b"x1", x1, b"y1", y1)?;
    put_point(text, b"x2", x2, b"y2", y2)
}

/// Puts words of a class at a point, which are not ended.
pub fn put_words_at(text: &mut Vec<u8>, class: &[u8], x: u64, y: u64) -> Result<(), AllocError>
    ensures { OnOk result (text.new.items ≡ text.old.items ++ words_at class.now x y) }
{
    put_tag(text, b"text", class)?;
    put_point(text, b"x", x, b"y", y)?;
    text.extend_from_slice(b">")
}

/// Puts a tag that is begun, of a class.
pub fn put_tag(text: &mut Vec<u8>, name: &[u8], class: &[u8]) -> Result<(), AllocError>
    ensures { OnOk result (text.new.items ≡ text.old.items ++ tag name.now class.now) }
{
    text.extend_from_slice(b"<")?;
    text.extend_from_slice(name)?;
    text.extend_from_slice(b" class='")?;
    text.extend_from_slice(class)?;
    text.extend_from_slice(b"'")
}

/// Puts words between two texts, escaped.
pub fn put_between(
    text: &mut Vec<u8>,
    before: &[u8],
    words: &[u8],
    after: &[u8],
) -> Result<(), AllocError>
    ensures { OnOk result (text.new.items ≡ text.old.items ++ between before.now words.now after.now) }
{
    text.extend_from_slice(before)?;
    put_escaped(text, words)?;
    text.extend_from_slice(after)
}

/// Puts the two attributes of a point.
pub fn put_point(
    text: &mut Vec<u8>,
    x_name: &[u8],
    x: u64,
    y_name: &[u8],
    y: u64,
) -> Result<(), AllocError>
    ensures { OnOk result (text.new.items ≡ text.old.items ++ point x_name.now x y_name.now y) }
{
    put_attribute(text, x_name, x)?;
    put_attribute(text, y_name, y)
}

/// Puts the two numbers that end an attribute.
pub fn put_pair(text: &mut Vec<u8>, before: &[u8], x: u64, y: u64) -> Result<(), AllocError>
    ensures { OnOk result (text.new.items ≡ text.old.items ++ pair before.now x y) }
{
    text.extend_from_slice(before)?;
    print_u64(text, x)?;
    text.extend_from_slice(b" ")?;
    print_u64(text, y)?;
    text.extend_from_slice(b"'")
}

fn put_attribute(text: &mut Vec<u8>, name: &[u8], value: u64) -> Result<(), AllocError>
    ensures { OnOk result (text.new.items ≡ text.old.items ++ attribute name.now value) }
{
    text.extend_from_slice(b" ")?;
    text.extend_from_slice(name)?;
    text.extend_from_slice(b"='")?;
    print_u64(text, value)?;
    text.extend_from_slice(b"'")
}
