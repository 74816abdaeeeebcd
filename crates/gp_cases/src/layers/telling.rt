use gp_text::print_i64;
use std::alloc::AllocError;

/// Tells a line.
pub fn tell(out: &mut Vec<u8>, line: &str) -> Result<(), AllocError> {
    out.extend_from_slice(line.as_bytes())?;
    out.push(b'\n')?;
    Ok(())
}

/// Tells the last word of a line, a number with its sign.
pub fn tell_last(out: &mut Vec<u8>, number: i64) -> Result<(), AllocError> {
    out.push(b' ')?;
    print_i64(out, number)?;
    out.push(b'\n')?;
    Ok(())
}
