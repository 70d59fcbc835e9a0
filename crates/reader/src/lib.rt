// The reader: turns a written expression into an expression table.

#![tactic(auto)]

mod entries;
mod rules;

ghost use Rattle.theory.specs.Read.{Read};
ghost use Rattle.columns.specs.Table.{lent_table, SameTable};
ghost use Rattle.reader.specs.Answer.{answer};
ghost use Rattle.reader.specs.Whole.{Limited};

use columns::table::TableMut;
use entries::Found;
use theory::limit;
use theory::refusal::{Cause, Refusal};

// 01: "the result gives the number of entries"; "A refusal returns its number and place".
pub fn read(text: &[u8], table: &mut TableMut<'_>) -> Result<usize, Refusal>
    ensures same { SameTable table.old table.new }
    ensures read { Read text.now (lent_table table.old) (answer result) (lent_table table.new) }
{
    match limited(text, table) {
        Ok((entries, _)) => Ok(entries),
        Err(refusal) => {
            table.clear();
            Err(refusal)
        }
    }
}

// 01: "Reader: 1, 12, then the one of 13, 14, 15 with the earliest byte".
#[tactic(auto, using(crate::proofs::Whole::due_differ, crate::proofs::Whole::due_long, crate::proofs::Whole::limited))]
fn limited(text: &[u8], table: &mut TableMut<'_>) -> Found
    ensures same { SameTable table.old table.new }
    ensures limited { Limited text.now (lent_table table.old) result (lent_table table.new) }
{
    table.clear();
    if !table.view().is_even() {
        return Err(Refusal {
            cause: Cause::ColumnsDiffer,
            place: 0,
        });
    }
    if limit::TEXT < text.len() {
        return Err(Refusal {
            cause: Cause::TextLong,
            place: 0,
        });
    }
    let room = limit::ENTRIES.min(table.kind.len());
    rules::whole(text, room, table)
}
