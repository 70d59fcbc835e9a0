// 01: "The text place and the record place are each a small cursor, handed in and handed back."

ghost use Rattle.std.specs.Prelude.{◌≡◌};
ghost use Rattle.columns.specs.Cursor.{step_at};

#[derive(Clone, Copy, PartialEq, Eq)]
pub struct Cursor {
    pub at: usize,
}

impl Cursor {
    pub fn start() -> Self
        ensures { result.at ≡ 0 }
    {
        Cursor { at: 0 }
    }

    // The byte at the cursor, with the cursor after it; `None` at the end.
    pub fn step(self, bytes: &[u8]) -> Option<(u8, Cursor)>
        ensures { result ≡ step_at bytes.now self.at }
    {
        let at = self.at;
        if at < bytes.len() {
            Some((bytes[at], Cursor { at: at + 1 }))
        } else {
            None
        }
    }
}
