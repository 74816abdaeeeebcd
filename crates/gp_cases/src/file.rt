use std::alloc::{AllocError, Global};

/// A file of a case: what stands before the place where the next line goes, and what stands behind it.
#[derive(Clone, Drop)]
pub struct File {
    path: String,
    before: Vec<u8>,
    behind: Vec<u8>,
}

/// Where the lines behind the first ones begin, so many of them.
fn end_of_lines(bytes: &[u8], lines: usize) -> usize {
    let mut end = 0usize;
    for line in bytes.split_inclusive(|byte| *byte == b'\n').take(lines) {
        end = end.wrapping_add(line.len());
    }
    end
}

impl File {
    pub fn new(alloc: Global, path: &str, bytes: &[u8]) -> Result<File, AllocError> {
        Ok(File {
            path: String::from_str(alloc, path)?,
            before: Vec::from_slice(alloc, bytes)?,
            behind: Vec::new(alloc),
        })
    }

    pub fn path(&self) -> &str {
        self.path.as_str()
    }

    /// Whether the file holds these bytes.
    pub fn holds(&self, bytes: &[u8]) -> bool {
        match bytes.strip_prefix(self.before.as_slice()) {
            Some(behind) => behind == self.behind.as_slice(),
            None => false,
        }
    }

    pub fn bytes(&self, alloc: Global) -> Result<Vec<u8>, AllocError> {
        let mut bytes = Vec::from_slice(alloc, self.before.as_slice())?;
        bytes.extend_from_slice(self.behind.as_slice())?;
        Ok(bytes)
    }

    pub fn put(&mut self, bytes: &[u8]) -> Result<(), AllocError> {
        self.before.extend_from_slice(bytes)?;
        Ok(())
    }

    /// Takes so many lines away behind the first ones, so many of them. What is put next stands in their place.
    pub fn take_lines(
        &mut self,
        alloc: Global,
        first: usize,
        taken: usize,
    ) -> Result<(), AllocError> {
        let bytes = self.bytes(alloc)?;
        let bytes = bytes.as_slice();
        let start = end_of_lines(bytes, first);
        let end = end_of_lines(bytes, first.wrapping_add(taken));
        self.before = Vec::from_slice(alloc, bytes.get(..start).unwrap_or(bytes))?;
        self.behind = Vec::from_slice(alloc, bytes.get(end..).unwrap_or(&[]))?;
        Ok(())
    }

    /// Adds comments, of lines that end at each multiple of 4,096 bytes, up to this length.
    pub fn fill(&mut self, length: usize) -> Result<(), AllocError> {
        for _ in 0..length.wrapping_div(4096).saturating_add(2) {
            let filled = self.before.len();
            let end = length.min(
                filled
                    .wrapping_div(4096)
                    .wrapping_mul(4096)
                    .wrapping_add(4096),
            );
            if filled < end {
                self.before.resize(end.wrapping_sub(1), b'#')?;
                self.before.push(b'\n')?;
            }
        }
        Ok(())
    }
}
