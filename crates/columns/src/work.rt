// The matcher's two work columns. 01: they "are no table and may differ in length".

ghost use Rattle.std.specs.Prelude.{◌≡◌};
ghost use Rattle.theory.specs.Record.{cleared};
ghost use Rattle.columns.specs.Work.{lent_work, SameWork};

#[derive(Drop)]
pub struct Work<'a> {
    pub current: &'a mut [u64],
    pub next: &'a mut [u64],
}

impl Work<'_> {
    // 01: "Work columns are zero afterwards."
    pub fn clear(&mut self)
        ensures same { SameWork self.old self.new }
        ensures cleared { lent_work self.new ≡ cleared (lent_work self.old) }
    {
        self.current.fill(0);
        self.next.fill(0);
    }
}
