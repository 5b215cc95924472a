// What status answers.
ghost use Rattle.std.specs.Prelude.{◌≡◌};
ghost use Rattle.std.specs.Option.{unwrap_or};

// How many orders wait, and the serial of the order that is out, if one is.
#[derive(Clone, Copy)]
pub struct Status {
    pub waiting: usize,
    pub out: Option<u32>,
}

impl Status {
    // The number that a screen shows for the order that is out: its serial, or 0 where none is.
    pub fn number(self) -> u32
        ensures { result ≡ unwrap_or self.out 0 }
    {
        self.out.unwrap_or(0)
    }
}
