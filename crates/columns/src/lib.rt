// The columns that a caller lends, as the library reads and writes them, and a cursor over a text or a record.

#![tactic(auto)]

pub mod arcs;
pub mod cursor;
pub mod row;
pub mod states;
pub mod table;
pub mod work;
