ghost use Rattle.std.specs.Prelude.{◌≡◌, ◌≤◌, ◌<◌, ◌++◌, Err, OnOk, OnErr, length};
ghost use Rattle.gp_outside.specs.Faults.{Rose};
ghost use Rattle.gp_outside.specs.Sinks.{Appends, AppendsFront};

use gp_outside::{PutFault, Sink};

/// Writes a text, each of its lines by one call. Where the sink fails, or memory is wanting, a part of it may be written.
pub fn put_each_line<S: Sink>(sink: &mut S, text: &[u8]) -> Result<(), PutFault>
    ensures later { S.faults sink.old ≤ S.faults sink.new }
    ensures ok { OnOk result (Appends (S.written sink.old) (S.written sink.new) text.now) }
    ensures err { OnErr result (AppendsFront (S.written sink.old) (S.written sink.new) text.now) }
    ensures failed { result ≡ Err PutFault.Failed → Rose (S.faults sink.old) (S.faults sink.new) }
{
    let mut rest = text;
    while !rest.is_empty() {
        let (line, after) = cut_line(rest);
        sink.put(line)?;
        rest = after;
    }
    Ok(())
}

/// Cuts a text behind its first newline.
fn cut_line(text: &[u8]) -> (&[u8], &[u8])
    requires { 1 ≤ length text.now }
    ensures whole { text.now ≡ result.0.now ++ result.1.now }
    ensures shorter { length result.1.now < length text.now }
{
    for (i, byte) in text.iter().enumerate() {
        if *byte == b'\n' {
            return text.split_at(i + 1);
        }
    }
    (text, &[])
}
