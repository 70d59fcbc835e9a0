// The check of an expression table. 01: "Builder: 1, 2, 3, then entries from 0 upward, each checked for 4, 5, 6, 7; then 8".

#![tactic(auto)]

mod entry;
mod naming;

ghost use Rattle.std.specs.Prelude.{◌≡◌};
ghost use Rattle.theory.specs.Stated.{refusal_in};
ghost use Rattle.theory.specs.Table.{table_refusal};
ghost use Rattle.columns.specs.Table.{read_table};

use columns::table::Table;
use theory::limit;
use theory::refusal::{Cause, Refusal};

#[tactic(auto, using(crate::proofs::Scanning::order_laws))]
pub fn check(table: Table<'_>) -> Result<(), Refusal>
    ensures { refusal_in result ≡ table_refusal (read_table table.entry) }
{
    if !table.is_even() {
        return Err(Refusal {
            cause: Cause::ColumnsDiffer,
            place: 0,
        });
    }
    if table.kind.is_empty() {
        return Err(Refusal {
            cause: Cause::TableEmpty,
            place: 0,
        });
    }
    if limit::ENTRIES < table.kind.len() {
        return Err(Refusal {
            cause: Cause::TableLong,
            place: 0,
        });
    }
    entry::entries_checked(table)?;
    naming::naming_checked(table)
}
