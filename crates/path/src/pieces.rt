// The pieces of a word as names.
ghost use Rattle.std.specs.Iterator.{YieldsFirstBy, item_count};
ghost use Rattle.path.specs.Names.{name_of, names_left};

use crate::name::Name;
use text::pieces::Split;

// The names that are left of a word.
#[derive(Drop)]
pub struct Pieces<'a> {
    pub pieces: Split<'a>,
}

impl<'a> Iterator for Pieces<'a> {
    type Item = Name<'a>;

    ghost next_gives = { YieldsFirstBy name_of names_left };

    ghost remaining = { item_count names_left };

    fn next(&mut self) -> Option<Name<'a>> {
        let text = self.pieces.next()?;
        Some(Name {
            text,
            followed: self.pieces.rest.is_some(),
            word: 0,
        })
    }
}
