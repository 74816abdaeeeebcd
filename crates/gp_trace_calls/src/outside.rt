ghost use Rattle.std.specs.Prelude.{◌++◌, ◌≡◌, ◌≢◌, ◌≤◌, Err, IsTrue};
ghost use Rattle.gp_outside.specs.MemoryFolders.{after_call, after_write, fails_next, read_answer, read_bytes, write_answer};
ghost use Rattle.gp_outside.specs.MemorySinks.{after_call as after_put_call, after_put, put_answer};

use gp_outside::{Folder, MemoryFolder, MemorySink, PutFault, ReadFault, Sink, WriteFault};

/// As `read` of a `MemoryFolder` of `gp_outside`.
pub fn read_from_memory(
    folder: &mut MemoryFolder,
    name: &str,
    limit: u64,
    out: &mut Vec<u8>,
) -> Result<(), ReadFault>
    ensures later { folder.old.faults ≤ folder.new.faults }
    ensures counted { folder.new ≡ after_call folder.old }
    ensures scripted { IsTrue (fails_next folder.old) → result ≡ Err ReadFault.Failed }
    ensures answer { result ≢ Err ReadFault.Memory → result ≡ read_answer folder.old name.now limit }
    ensures bytes { result ≢ Err ReadFault.Memory →
        out.new.items ≡ out.old.items ++ read_bytes folder.old name.now limit }
    ensures memory { result ≡ Err ReadFault.Memory → out.new.items ≡ out.old.items }
{
    folder.read(name, limit, out)
}

/// As `write` of a `MemoryFolder` of `gp_outside`.
pub fn write_into_memory(
    folder: &mut MemoryFolder,
    name: &str,
    bytes: &[u8],
) -> Result<(), WriteFault>
    ensures later { folder.old.faults ≤ folder.new.faults }
    ensures scripted { IsTrue (fails_next folder.old) → result ≡ Err WriteFault.Failed }
    ensures answer { result ≢ Err WriteFault.Memory → result ≡ write_answer folder.old }
    ensures after { result ≢ Err WriteFault.Memory →
        folder.new ≡ after_write folder.old name.now bytes.now }
    ensures memory { result ≡ Err WriteFault.Memory → folder.new ≡ after_call folder.old }
{
    folder.write(name, bytes)
}

/// As `put` of a `MemorySink` of `gp_outside`.
pub fn put_into_memory(sink: &mut MemorySink, piece: &[u8]) -> Result<(), PutFault>
    ensures later { sink.old.faults ≤ sink.new.faults }
    ensures answer { result ≢ Err PutFault.Memory → result ≡ put_answer sink.old }
    ensures after { result ≢ Err PutFault.Memory → sink.new ≡ after_put sink.old piece.now }
    ensures memory { result ≡ Err PutFault.Memory → sink.new ≡ after_put_call sink.old }
{
    sink.put(piece)
}
