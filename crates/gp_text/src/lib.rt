// Texts of bytes as lines of words, and the two kinds of word that every format shares: names and
// canonical decimals. A text is split at its newlines, and each line at its spaces; a line without
// words, or whose first word begins with `#`, is passed over but counted, so that a line's number is
// its number in the text, from 1. A byte outside 0x20..0x7E, a line of over 4,096 bytes and a text
// without a newline at its end are refused. A text is read line by line without memory by `Lines` and
// `Words`, once `check_text` has found no fault in it. Contracts see a `Row`, a `Table`, a `Name`, a
// `Word`, and what is left of a walk as a list.
#![tactic(auto)]

mod cursor;
mod line;
mod lines;
mod name;
mod numbers;
mod parts;
mod spelling;

pub use cursor::{Lines, TextLine, Words};
pub use line::{Line, Word};
pub use lines::{LONGEST_LINE, TextFault, check_text, end_line, read_lines};
pub use name::{LONGEST_NAME, Name};
pub use numbers::{
    between, number_after, one_spelling, print_i64, print_u64, read_i64, read_u32, read_u64,
};
pub use parts::cut;
pub use spelling::{plain_words, reads_again};
