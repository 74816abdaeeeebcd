ghost use Rattle.std.specs.Prelude.{◌≡◌, IfOk};
ghost use Rattle.gp_predict.specs.Lines.{instance_line, property_line, total_line, window_line};

use gp_base::Row;
use gp_instance::Instance;
use gp_text::Name;
use gp_writer::{put_line, put_numbered_line};
use std::alloc::{AllocError, Global};

/// The line that begins what is told of window `k`.
pub fn window_line(alloc: Global, k: u32) -> Result<Row<u8>, AllocError>
    ensures { IfOk result (λ line. line ≡ window_line k) }
{
    let mut line = Vec::new(alloc);
    put_line(&mut line, b"window", &[k])?;
    Ok(Row::from_vec(line))
}

/// The line that begins what is told of a property, with how many instances it has.
pub fn property_line(alloc: Global, name: &Name, many: &str) -> Result<Row<u8>, AllocError>
    ensures { IfOk result (λ line. line ≡ property_line name.now many.now) }
{
    let mut line = Vec::new(alloc);
    put_line(&mut line, b"property", &[name.as_bytes(), many.as_bytes()])?;
    Ok(Row::from_vec(line))
}

/// The line of the instance of this number.
pub fn instance_line(
    alloc: Global,
    number: usize,
    instance: &Instance,
) -> Result<Row<u8>, AllocError>
    ensures { IfOk result (λ line. line ≡ instance_line number instance.now) }
{
    let mut line = Vec::new(alloc);
    put_numbered_line(
        &mut line,
        b"instance",
        number as u64,
        instance.events.as_slice(),
    )?;
    Ok(Row::from_vec(line))
}

/// The line that tells how many instances there are.
pub fn total_line(alloc: Global, total: u64) -> Result<Row<u8>, AllocError>
    ensures { IfOk result (λ line. line ≡ total_line total) }
{
    let mut line = Vec::new(alloc);
    put_line(&mut line, b"total", &[total])?;
    Ok(Row::from_vec(line))
}
