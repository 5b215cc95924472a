// The law of the console.
ghost use Rattle.console.specs.Law.{LawStands};

// Every answer in every history that led to a console was right at its turn, and what follows from that.
pub fn law_stands() -> u8
    ensures { LawStands }
{
    0
}
