// Numbers of an image, the lowest byte first.
ghost use Rattle.std.specs.Prelude.{◌≡◌, ℕ, ◌-◌, ◌<◌, length, MatchOption};
ghost use Rattle.format.specs.Format.{Good, number};
ghost use Rattle.format.specs.Fields.{below, within};
ghost use Rattle.format.specs.Reads.{Reads};

use crate::cursor::Cursor;
use refusal::Refusal;

// A number of so many bytes.
pub trait Number: Copy {
    ghost WIDTH: { ℕ };

    ghost value: { Self → ℕ };

    const WIDTH: usize;

    // The number at the front of some bytes.
    fn from_front(bytes: &[u8]) -> Option<Self>
        ensures { MatchOption result (length bytes.now < WIDTH) (λ v. Good (number WIDTH) bytes.now 0 (value v) WIDTH) };

    fn wide(self) -> u32
        ensures { result ≡ value self };
}

impl Number for u8 {
    ghost WIDTH = { 1 };

    ghost value = { λ v. v };

    const WIDTH: usize = 1;

    fn from_front(bytes: &[u8]) -> Option<u8> {
        bytes.first().copied()
    }

    fn wide(self) -> u32 {
        self.into()
    }
}

impl Number for u16 {
    ghost WIDTH = { 2 };

    ghost value = { λ v. v };

    const WIDTH: usize = 2;

    fn from_front(bytes: &[u8]) -> Option<u16> {
        bytes.first_chunk().map(|b| u16::from_le_bytes(*b))
    }

    fn wide(self) -> u32 {
        self.into()
    }
}

impl Number for u32 {
    ghost WIDTH = { 4 };

    ghost value = { λ v. v };

    const WIDTH: usize = 4;

    fn from_front(bytes: &[u8]) -> Option<u32> {
        bytes.first_chunk().map(|b| u32::from_le_bytes(*b))
    }

    fn wide(self) -> u32 {
        self
    }
}

impl Cursor<'_> {
    // How many bytes are left.
    pub(crate) fn left(&self) -> usize
        ensures { result ≡ length self.now.image.now - self.now.at }
    {
        self.image.len().saturating_sub(self.at)
    }

    pub fn read_number<N: Number>(&mut self) -> Result<N, Refusal>
        ensures { Reads (number N.WIDTH) (λ _ v. N.value v) self.old result self.new }
    {
        let at = self.at;
        let rest = self.image.get(at..).unwrap_or_default();
        let value = N::from_front(rest).ok_or(Refusal::FieldCutOff { at })?;
        self.at = at + N::WIDTH;
        Ok(value)
    }

    pub fn read_below<N: Number>(&mut self, limit: u16) -> Result<N, Refusal>
        ensures { Reads (below limit N.WIDTH) (λ _ v. N.value v) self.old result self.new }
    {
        self.read_in_range(|c| c.read_number::<N>(), |v| v.wide() < limit.into())
    }

    // A number from one bound to another.
    pub fn read_within<N: Number>(&mut self, least: u16, most: u16) -> Result<N, Refusal>
        ensures { Reads (within least most N.WIDTH) (λ _ v. N.value v) self.old result self.new }
    {
        self.read_in_range(
            |c| c.read_number::<N>(),
            |v| (least.into()..=most.into()).contains(&v.wide()),
        )
    }
}
