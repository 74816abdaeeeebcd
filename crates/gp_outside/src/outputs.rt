use std::io::{self, Write};

/// The standard output of a runtime, as a writer. No content is told.
#[derive(Drop)]
pub struct Output<R> {
    rt: R,
}

impl<R> Output<R> {
    pub fn new(rt: R) -> Output<R> {
        Output { rt }
    }
}

impl<R: Print> Write for Output<R> {
    fn write(&mut self, bytes: &[u8]) -> io::Result<usize> {
        self.rt.write_some(bytes)
    }

    // What was written is not kept back.
    fn flush(&mut self) -> io::Result<()> {
        Ok(())
    }
}
