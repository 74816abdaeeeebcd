// A report at a glance: the verdict on it in words, and a table that tells how often each property is found, impossible,
// undecided and asked in vain, as text and as parts of a page. All is put at the end of a text, so that the text so far
// stays. Where memory is wanting, no contract says what the text is.
#![tactic(auto)]

mod counting;
mod counts;
mod laws;
mod page;
mod table;
mod verdict;

pub use counting::{answer_count, counts_of, total_of};
pub use counts::Counts;
pub use laws::{overviews_have_own_markup, shows_examples, tables_add_up};
pub use page::{put_table_part, put_verdict_part};
pub use table::put_table;
pub use verdict::{put_reason, put_verdict, verdict_words};
