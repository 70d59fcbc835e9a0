// Prints what the public calls answer at each of 01's limits, for each cause of a refusal and for each kind of entry.

#![tactic(auto)]

mod kinds;
mod lines;
mod records;
mod tables;
mod texts;

fn main() {
    if texts::all().is_err() {
        io::write_all(2, b"a text has no room\n");
    }
    records::all();
    tables::all();
    kinds::all();
}
