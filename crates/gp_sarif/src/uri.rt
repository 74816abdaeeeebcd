ghost use Rattle.std.specs.Prelude.{◌≡◌, ◌<◌, ◌++◌, ◌∷◌, [], OnOk};
ghost use Rattle.gp_json.specs.Strings.{string_text};
ghost use Rattle.gp_sarif.specs.Uri.{begins_with_number, by_percent, is_hexadecimal, is_kept, is_letter_or_digit, is_plain, path_byte, path_of, scheme_of, upper_digit, uri_of};

use gp_json::put_string;
use std::alloc::AllocError;

/// Puts the URI reference of a file of this name, as a string.
#[tactic(auto, unfolding(crate::specs::Uri::uri_of))]
pub(crate) fn put_uri(text: &mut Vec<u8>, file: &[u8]) -> Result<(), AllocError>
    ensures { OnOk result (text.new.items ≡ text.old.items ++ string_text (uri_of file.now)) }
{
    let mut uri = Vec::new(*text.allocator());
    put_scheme(&mut uri, file)?;
    put_path(&mut uri, file)?;
    put_string(text, uri.as_slice())
}

fn put_scheme(uri: &mut Vec<u8>, file: &[u8]) -> Result<(), AllocError>
    ensures { OnOk result (uri.new.items ≡ uri.old.items ++ scheme_of file.now) }
{
    match file {
        [b'/', ..] => uri.extend_from_slice(b"file://"),
        _ => Ok(()),
    }
}

fn put_path(uri: &mut Vec<u8>, file: &[u8]) -> Result<(), AllocError>
    ensures { OnOk result (uri.new.items ≡ uri.old.items ++ path_of file.now) }
{
    let mut left = file;
    while let [byte, rest @ ..] = left {
        put_path_byte(uri, *byte, rest)?;
        left = rest;
    }
    Ok(())
}

fn put_path_byte(uri: &mut Vec<u8>, byte: u8, rest: &[u8]) -> Result<(), AllocError>
    ensures { OnOk result (uri.new.items ≡ uri.old.items ++ path_byte byte rest.now) }
{
    if !is_kept(byte, rest) {
        return put_by_percent(uri, byte);
    }
    uri.push(byte)?;
    Ok(())
}

/// Whether a byte of a name, behind which the rest stands, stands for itself in a path. A name has bytes by their numbers already.
fn is_kept(byte: u8, rest: &[u8]) -> bool
    ensures { result ≡ is_kept byte rest.now }
{
    is_plain(byte) || (byte == b'%' && begins_with_number(rest))
}

fn begins_with_number(bytes: &[u8]) -> bool
    ensures { result ≡ begins_with_number bytes.now }
{
    match bytes {
        [high, low, ..] => is_hexadecimal(*high) && is_hexadecimal(*low),
        _ => false,
    }
}

fn is_hexadecimal(byte: u8) -> bool
    ensures { result ≡ is_hexadecimal byte }
{
    (b'0' <= byte && byte <= b'9')
        || (b'a' <= byte && byte <= b'f')
        || (b'A' <= byte && byte <= b'F')
}

fn is_plain(byte: u8) -> bool
    ensures { result ≡ is_plain byte }
{
    is_letter_or_digit(byte)
        || byte == b'-'
        || byte == b'.'
        || byte == b'_'
        || byte == b'~'
        || byte == b'/'
}

fn is_letter_or_digit(byte: u8) -> bool
    ensures { result ≡ is_letter_or_digit byte }
{
    (b'a' <= byte && byte <= b'z')
        || (b'A' <= byte && byte <= b'Z')
        || (b'0' <= byte && byte <= b'9')
}

fn put_by_percent(uri: &mut Vec<u8>, byte: u8) -> Result<(), AllocError>
    ensures { OnOk result (uri.new.items ≡ uri.old.items ++ by_percent byte) }
{
    uri.push(b'%')?;
    uri.push(upper_digit(byte / 16))?;
    uri.push(upper_digit(byte % 16))?;
    Ok(())
}

fn upper_digit(digit: u8) -> u8
    requires { digit < 16 }
    ensures { result ≡ upper_digit digit }
{
    if digit < 10 {
        b'0' + digit
    } else {
        b'A' - 10 + digit
    }
}
