// Tables with all rows zero.
ghost use Rattle.std.specs.Prelude.{◌≡◌};
ghost use Rattle.image.specs.Tables.{zero as zero_tables};

use crate::tables::{Sizes, Tables};
use register::kind::Kind;
use text::span::Span;
use tree::rows::{LetterRow, LongRow, ModuleRow, NO_PARAMETER, NameRow, PatternRow, RecipeRow};

const NO_TEXT: Span = Span { start: 0, len: 0 };

const NO_NAME: NameRow = NameRow {
    module: 0,
    kind: Kind::Module,
    text: NO_TEXT,
    number: None,
};

const NO_RECIPE: RecipeRow = RecipeRow {
    count: 0,
    parameters: [NO_PARAMETER; 16],
};

const NO_PATTERN: PatternRow = PatternRow {
    count: 0,
    texts: [NO_TEXT; 16],
    gauge: None,
};

const NO_LONG: LongRow = LongRow {
    recipe: 0,
    text: NO_TEXT,
    place: 0,
};

const NO_LETTER: LetterRow = LetterRow {
    recipe: 0,
    letter: 0,
    place: 0,
};

const NO_SIZES: Sizes = Sizes {
    modules: 0,
    names: 0,
    recipes: 0,
    patterns: 0,
    longs: 0,
    letters: 0,
};

impl Tables {
    // Tables with all rows zero.
    pub fn new() -> Tables
        ensures { result ≡ zero_tables }
    {
        Tables {
            sizes: NO_SIZES,
            modules: [ModuleRow { default: None }; 64],
            names: [NO_NAME; 512],
            recipes: [NO_RECIPE; 64],
            patterns: [NO_PATTERN; 256],
            longs: [NO_LONG; 1024],
            letters: [NO_LETTER; 1024],
        }
    }
}
