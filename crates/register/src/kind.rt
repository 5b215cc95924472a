// What a name in a module stands for.
ghost use Rattle.std.specs.Prelude.{◌≡◌};
ghost use Rattle.register.specs.Kinds.{kind_number, IsOfNumber, labelled};

// Modules and their aliases lead to a module, recipes and their aliases to a recipe; the others have a label.
#[derive(Clone, Copy, PartialEq, Eq, PartialOrd, Ord)]
pub enum Kind {
    Module = 0,
    ModuleAlias = 1,
    Recipe = 2,
    RecipeAlias = 3,
    DisabledRecipe = 4,
    DisabledAlias = 5,
    AbsentModule = 6,
}

// A number that no kind has.
#[derive(Clone, Copy, PartialEq, Eq)]
pub struct NoKind;

// The kind's number.
impl From<Kind> for u8 {
    ghost from_gives = { λ kind number. number ≡ kind_number kind };

    fn from(kind: Kind) -> u8 {
        kind as u8
    }
}

// The kind that has this number.
impl TryFrom<u8> for Kind {
    type Error = NoKind;

    ghost try_from_gives = { IsOfNumber };

    fn try_from(number: u8) -> Result<Kind, NoKind> {
        match number {
            0 => Ok(Kind::Module),
            1 => Ok(Kind::ModuleAlias),
            2 => Ok(Kind::Recipe),
            3 => Ok(Kind::RecipeAlias),
            4 => Ok(Kind::DisabledRecipe),
            5 => Ok(Kind::DisabledAlias),
            6 => Ok(Kind::AbsentModule),
            _ => Err(NoKind),
        }
    }
}

impl Kind {
    // Whether what is found of a name of this kind is a label.
    pub fn labelled(self) -> bool
        ensures { result ≡ labelled self }
    {
        matches!(
            self,
            Kind::DisabledRecipe | Kind::DisabledAlias | Kind::AbsentModule
        )
    }
}
