// What stands over the tables of a checked image: its register and its judges.
ghost use Rattle.std.specs.Prelude.{Some};
ghost use Rattle.image.specs.Loads.{Loads};
ghost use Rattle.image.specs.Texts.{answer_text};

use crate::check::check;
use crate::tables::{Sizes, Tables};
use judges::gauges::GaugeJudge;
use judges::texts::TextsJudge;
use refusal::Refusal;
use std::fmt;
use text::part::front;
use tree_register::table_register::TableRegister;

// An image that was checked: the answer, and the register and the judges over the tables.
// Kept: the answer stands beside them and not around them, since programs go on over the empty tables of a refused image.
#[derive(Clone, Copy)]
pub struct Loaded<'a> {
    pub answer: Result<Sizes, Refusal>,
    pub register: TableRegister<'a>,
    pub texts: TextsJudge<'a>,
    pub gauges: GaugeJudge<'a>,
}

// `image ok` and how many modules, names, recipes and patterns the tree has, or the refusal.
impl fmt::Display for Loaded<'_> {
    ghost output = { λ loaded. Some (answer_text loaded.answer) };

    fn fmt<W: fmt::Write>(&self, f: &mut fmt::Formatter<W>) -> fmt::Result {
        match self.answer {
            Ok(
                Sizes {
                    modules,
                    names,
                    recipes,
                    patterns,
                    ..
                },
            ) => write!(f, "image ok {modules} {names} {recipes} {patterns}"),
            Err(refusal) => write!(f, "{refusal}"),
        }
    }
}

// Kept: the image and the tables are given one by one, here and above, since the same tables serve one image after another.
// Checks the image. Where it is refused, the register has no modules and the judges accept nothing.
pub fn load<'a>(image: &'a [u8], tables: &'a mut Tables) -> Loaded<'a>
    ensures { Loads image.now result }
{
    let answer = check(image, tables);
    let sizes = tables.sizes;
    let patterns = front(&tables.patterns, sizes.patterns);
    Loaded {
        answer,
        register: TableRegister {
            image,
            modules: front(&tables.modules, sizes.modules),
            names: front(&tables.names, sizes.names),
            recipes: front(&tables.recipes, sizes.recipes),
            longs: front(&tables.longs, sizes.longs),
            letters: front(&tables.letters, sizes.letters),
        },
        texts: TextsJudge { image, patterns },
        gauges: GaugeJudge { patterns },
    }
}
