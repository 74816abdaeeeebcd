// Recordings and their windows.
//
// A recording is a manifest and the separate traces of the threads of one run, each cut into as many
// segments as the run had epochs. Between two epochs all threads stood still, so the run is a sequence
// of windows, each with what it begins with: values of variables, holders of locks, started threads.
// `read_recording` reads and checks a recording, and `cut` gives one of its windows.
#![tactic(auto)]

mod content;
mod contested;
mod event_id;
mod fault;
mod file_name;
mod holders;
mod laws;
mod manifest;
mod marks;
mod numbers;
mod reading;
mod recording;
mod schedule;
mod starts;
mod users;
mod walk;
mod window;
mod windows;
mod windows_ahead;

pub use content::{ContentFault, content_of};
pub use event_id::{event_id_of, event_ids_read_exactly, put_event_id};
pub use fault::RecordingFault;
pub use file_name::FileName;
pub use laws::{
    manifests_are_spelled, marks_mean, starts_mean, windows_are_formed, windows_follow,
};
pub use manifest::{
    MOST_EPOCHS, MOST_FORMAT, MOST_THREADS, Manifest, ManifestFault, StartValue, read_manifest,
};
pub use reading::read_recording;
pub use recording::Recording;
pub use schedule::{EventId, Schedule, contains_event};
pub use starts::is_among;
pub use walk::cut;
pub use window::Window;
pub use windows::Windows;
pub use windows_ahead::WindowsAhead;
