// JSON values as text. A value is what its definition says; here its text is put, part by part, at the end of a text, so that
// the text so far stays. All of it is ASCII: a byte of a string that does not print is written by its number.
#![tactic(auto)]

mod laws;
mod put;
mod string;

pub use laws::strings_read_back;
pub use put::{put_comma, put_flag, put_name, put_named_number, put_named_small, put_named_string};
pub use string::put_string;
