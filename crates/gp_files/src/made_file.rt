ghost use Rattle.std.specs.Prelude.{◌≡◌, ◌≤◌, ◌↔◌, IsTrue, length};
ghost use Rattle.gp_window.specs.FileNames.{limit_of};

use gp_base::Row;
use gp_window::FileName;
use std::marker::Model;

/// A file that is made for a folder: which one of the folder it is, and its text.
#[derive(Drop)]
pub struct MadeFile {
    name: FileName,
    text: Row<u8>,
}

impl Model for MadeFile {
    ghost use Rattle.gp_files.specs.MadeFileForm.{MadeFileForm};

    ghost Value = { MadeFileForm };

    ghost view = { λ f. record { name = f.name; text = f.text } };
}

impl MadeFile {
    /// The file of this name with this text, in no memory.
    pub fn new(name: FileName, text: Row<u8>) -> MadeFile
        ensures { result ≡ record { name = name; text = text } }
    {
        MadeFile { name, text }
    }

    /// Which file of the folder it is.
    pub fn name(&self) -> FileName
        ensures { result ≡ self.now.name }
    {
        self.name
    }

    /// Its text.
    pub fn text(&self) -> &[u8]
        ensures { result.now ≡ self.now.text }
    {
        self.text.as_slice()
    }

    /// Whether the text has no more bytes than a file of that name may have.
    pub fn fits(&self) -> bool
        ensures { IsTrue result ↔ (length self.now.text ≤ limit_of self.now.name) }
    {
        self.text.len() as u64 <= self.name.limit()
    }
}
