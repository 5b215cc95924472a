// The walk along a path, as just's `resolve_recipe`: name by name, from the root.
ghost use Rattle.std.specs.Prelude.{◌≡◌, ℕ, List, length, IfOk};
ghost use Rattle.std.specs.Iterator.{IsFinite};
ghost use Rattle.text.specs.Spans.{texts_at};
ghost use Rattle.path.specs.Laws.{Takes};
ghost use Rattle.path.specs.Path.{Modulepath, Meant, OnlyAnswer};
ghost use Rattle.path.specs.Steps.{LooksUp, unknown_name, StepsTo, DefaultOf, ResolvesTo, of_words, TextAnswer};
ghost use Rattle.path.specs.Names.{Names, SomeNames};

use crate::found::Found;
use crate::name::Name;
use crate::path::Path;
use crate::pieces::Pieces;
use refusal::Refusal;
use register::kind::Kind;
use register::register::Register;
use std::ops::ControlFlow;
use text::pieces::{Split, has_colon, is_well_formed, without_closing};
use text::span::Span;
use text::span::texts::text_at;

// The kinds by which a name is looked up, in sequence.
const KINDS: [Kind; 7] = [
    Kind::Module,
    Kind::ModuleAlias,
    Kind::Recipe,
    Kind::RecipeAlias,
    Kind::DisabledRecipe,
    Kind::DisabledAlias,
    Kind::AbsentModule,
];

// Looks a name up in a module: the first kind that finds it.
fn look_up<R: Register>(register: &R, module: u16, name: &[u8]) -> Option<Found>
    ensures { LooksUp (R.Register.names register.now) «module» name.now result }
{
    KINDS.iter().find_map(|kind| {
        register.find(module, *kind, name).map(|number| Found {
            kind: *kind,
            number,
        })
    })
}

// The refusal of a name that no kind finds.
fn unknown(name: Name) -> Refusal
    ensures { result ≡ unknown_name name.entry.followed name.entry.word }
{
    let word = name.word;
    if name.followed {
        Refusal::UnknownSubmodule { word }
    } else {
        Refusal::UnknownRecipe { word }
    }
}

// One name of a path: it leads on to a module, or the path ends at its recipe. Where pieces of the same word follow, only a module will do.
#[inline(always)]
fn step<R: Register>(
    register: &R,
    module: u16,
    name: Name,
) -> Result<ControlFlow<u16, u16>, Refusal>
    ensures { StepsTo (R.Register.names register.now) «module» name.entry.text.now name.entry.followed name.entry.word result }
{
    let Some(Found { kind, number }) = look_up(register, module, name.text) else {
        return Err(unknown(name));
    };
    let word = name.word;
    let label = usize::from(number);
    match kind {
        Kind::Module | Kind::ModuleAlias => Ok(ControlFlow::Continue(number)),
        Kind::Recipe | Kind::RecipeAlias if name.followed => {
            Err(Refusal::ExpectedSubmoduleButFoundRecipe { word })
        }
        Kind::Recipe | Kind::RecipeAlias => Ok(ControlFlow::Break(number)),
        Kind::DisabledRecipe => Err(Refusal::RecipeDisabled { word, label }),
        Kind::DisabledAlias => Err(Refusal::AliasDisabled { word, label }),
        Kind::AbsentModule => Err(Refusal::ModuleAbsent { word, label }),
    }
}

// The default of the module at which the names end.
fn default_of<R: Register>(register: &R, module: u16) -> Result<u16, Refusal>
    ensures { DefaultOf (R.Register.names register.now) «module» result }
{
    register.default(module).ok_or_else(|| {
        if register.has_recipes(module) {
            Refusal::NoDefaultRecipe { word: 0 }
        } else {
            Refusal::NoRecipes { word: 0 }
        }
    })
}

// The walk along the names of a path, which has so many words where they end.
fn walk<'a, R: Register, I: Iterator<Item = Name<'a>>>(
    register: &R,
    along: I,
    words: usize,
) -> Result<Path, Refusal>
    requires can { I.can_next along }
    requires ends { IsFinite (I.remaining along) }
    requires names { SomeNames I.next_gives along words }
    ensures { (path : Modulepath) → Names I.next_gives along path words → ResolvesTo (R.Register.names register.now) path result }
{
    let mut module = register.root();
    for name in along {
        match step(register, module, name)? {
            ControlFlow::Continue(next) => module = next,
            ControlFlow::Break(recipe) => {
                return Ok(Path {
                    recipe,
                    words: name.word + 1,
                    default: false,
                });
            }
        }
    }
    let recipe = default_of(register, module)?;
    Ok(Path {
        recipe,
        words,
        default: true,
    })
}

// The walk along words that are names.
fn walk_words<R: Register>(register: &R, bytes: &[u8], words: &[Span]) -> Result<Path, Refusal>
    ensures { ResolvesTo (R.Register.names register.now) (of_words (texts_at bytes.now words.now)) result }
{
    let names = words.iter().enumerate().map(|(i, span)| Name {
        text: text_at(bytes, *span),
        followed: false,
        word: i,
    });
    walk(register, names, words.len())
}

// The path that one word is. A piece that is no identifier is told before any name is looked up.
fn text_path<R: Register>(register: &R, text: &[u8]) -> Result<Path, Refusal>
    ensures { TextAnswer (R.Register.names register.now) text.now result }
{
    if is_well_formed(text) {
        let pieces = Split { rest: Some(text) };
        walk(register, Pieces { pieces }, 1)
    } else {
        Err(Refusal::UnknownRecipe { word: 0 })
    }
}

// What a word with a colon is taken for: the line's last word without one closing separator.
fn meant<'a>(word: &'a [u8], rest: &[Span]) -> &'a [u8]
    ensures { (bytes : List ℕ) → Meant word.now (texts_at bytes rest.now) result.now }
{
    if rest.is_empty() {
        without_closing(word)
    } else {
        word
    }
}

// The path of the order whose first word is the first of these, which go on to the line's end. A fault tells its word as counted from there.
pub fn find_path<R: Register>(register: &R, bytes: &[u8], words: &[Span]) -> Result<Path, Refusal>
    ensures answer { OnlyAnswer (R.Register.names register.now) (texts_at bytes.now words.now) result }
    ensures takes { IfOk result (λ found. Takes (length words.now) found) }
{
    if let Some((first, rest)) = words.split_first() {
        let word = text_at(bytes, *first);
        if has_colon(word) {
            return text_path(register, meant(word, rest));
        }
    }
    walk_words(register, bytes, words)
}
