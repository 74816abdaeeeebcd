// How a case file writes bytes that are no plain text.
use std::alloc::{AllocError, Global};

/// The bytes of a text in which `\xHH` stands for the byte of that number, in small hexadecimal digits.
pub fn unescaped(alloc: Global, text: &str) -> Result<Vec<u8>, AllocError> {
    let mut pieces = text.split("\\x");
    let plain = pieces.next().unwrap_or("");
    let mut bytes = Vec::from_slice(alloc, plain.as_bytes())?;
    for piece in pieces {
        put_piece(&mut bytes, piece.as_bytes())?;
    }
    Ok(bytes)
}

/// Adds the byte that the first two digits name, and what follows them.
fn put_piece(bytes: &mut Vec<u8>, piece: &[u8]) -> Result<(), AllocError> {
    if let [high, low, rest @ ..] = piece {
        bytes.push(digit(*high).wrapping_mul(16).wrapping_add(digit(*low)))?;
        bytes.extend_from_slice(rest)?;
    }
    Ok(())
}

fn digit(byte: u8) -> u8 {
    match byte {
        b'0'..=b'9' => byte.wrapping_sub(b'0'),
        b'a'..=b'f' => byte.wrapping_sub(b'a').wrapping_add(10),
        _ => 0,
    }
}
