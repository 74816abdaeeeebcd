// What every layer stands on: lists and finite maps that contracts see as themselves, answers that are joined one after
// another, and the laws of plain lists. A `Row` is seen as the list of its elements, and a `Table` as the list of its
// entries in the order of their keys.
#![tactic(auto)]

mod row;
mod table;

pub use row::Row;
pub use table::Table;
