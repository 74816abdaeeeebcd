mod answers;
mod cursor;
mod lists;
mod numbers;
mod report;
mod steps;
mod windows;

pub use report::{ReadReport, read_report};
