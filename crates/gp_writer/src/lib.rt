// Writers of texts of lines. Each puts what it is given at the end of a text, with one space between words and a newline
// after each line, so that the text so far stays and what was put is spelled behind it.
//
// What is told as one word is `Spelled`: a number, the id of an event, a literal, or words that are bytes already. A list
// stands in lines of 100 words, the last line with what is left. A step is a line with how many literals and hints it has,
// then the list of each. Where memory is wanting, no contract says what the text is.
#![tactic(auto)]

mod lines;
mod spelled;
mod steps;

pub use lines::{put_counted_list, put_line, put_list, put_numbered_line, put_word, put_words};
pub use spelled::Spelled;
pub use steps::{put_each_step, put_steps};
