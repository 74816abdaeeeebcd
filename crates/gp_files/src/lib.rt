// Files that are made for a folder, each of them a name and a text, and how they are written there: one after another, up to the
// first that is not written. What stands in the folder then is told for each way in which that ends, by the names of the files;
// files of different names never get into each other's way.
#![tactic(auto)]

mod made_file;
mod naming;
mod writing;

pub use made_file::MadeFile;
pub use naming::names_tell_apart;
pub use writing::write_files;
