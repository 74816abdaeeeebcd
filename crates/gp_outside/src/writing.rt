ghost use Rattle.gp_outside.specs.Sinks.{Appends, AppendsFront};
ghost use Rattle.std.specs.Prelude.{OnErr, OnOk};

use std::io::{self, Error, ErrorKind, Write};

// Writes the piece by as many writes as it takes. After a fault a prefix of the piece was written.
pub(crate) fn write_whole<W: Write>(writer: &mut W, piece: &[u8]) -> io::Result<()>
    ensures ok { OnOk result (Appends (W.contents writer.old) (W.contents writer.new) piece.now) }
    ensures err { OnErr result
        (AppendsFront (W.contents writer.old) (W.contents writer.new) piece.now) }
{
    let mut rest = piece;
    while !rest.is_empty() {
        let count = writer.write(rest)?;
        if count == 0 {
            return Err(Error::from(ErrorKind::WriteZero));
        }
        rest = &rest[count..];
    }
    Ok(())
}
