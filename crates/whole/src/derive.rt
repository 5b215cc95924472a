// The rows that list the long names and the letters of all recipes' parameters.
ghost use Rattle.std.specs.Prelude.{◌≡◌, ◌+◌, ◌*◌, ◌<◌, ◌≤◌, map, length, take, MatchOption, MatchResult};
ghost use Rattle.refusal.specs.declared.Refusal.TheVariants.{SharedName};
ghost use Rattle.tree.specs.Rows.{parameter_at, recipe_at};
ghost use Rattle.table.specs.Order.{Ascending};
ghost use Rattle.whole.specs.Places.{Among};
ghost use Rattle.whole.specs.Shared.{Distinct};
ghost use Rattle.whole.specs.Derived.{NamesDerived};
ghost use Rattle.whole.specs.Entries.{joined, key_by, Added, Stood, RecipeFilled, AllFilled, FirstTwice};

use crate::filled::Filled;
use crate::insertion::insert;
use crate::listing::Listing;
use refusal::Refusal;
use table::keyed::Keyed;
use text::part::front;
use tree::rows::{LetterRow, LongRow, ParameterRow, RecipeRow};

// Lists a parameter's name, if it has one. None where the recipe has that name already.
// Kept: `image`, `rows` and `filled` side by side; as a method of a struct with a ghost field that the filled rows ascend, `insert` did not close, since the field must hold before a written row is turned to its place, and the other methods must say besides that rows, image and length stay.
fn list_parameter<'k, T: Listing + Keyed<'k>>(
    image: &'k [u8],
    recipe: u16,
    place: u8,
    parameter: &ParameterRow,
    rows: &mut [T],
    filled: usize,
) -> Option<usize>
    requires room { filled < length rows.old }
    requires ascending { Ascending (key_by (T.Listing.said image.now)) (take filled rows.old) }
    ensures { MatchOption result (Stood (T.Listing.said image.now) (take filled rows.old) recipe (T.Listing.name (parameter_at image.now parameter.now))) (λ m. Added (T.Listing.said image.now) rows.old filled recipe place (T.Listing.name (parameter_at image.now parameter.now)) m rows.new) }
{
    match T::list(recipe, place, parameter) {
        Some(row) => insert(image, rows, filled, row),
        None => Some(filled),
    }
}

// The parameters of a recipe.
fn parameters_of(recipe: &RecipeRow) -> &[ParameterRow]
    ensures value { result.now ≡ take recipe.now.count recipe.now.parameters }
    ensures few { length result.now ≤ 16 }
{
    front(&recipe.parameters, recipe.count)
}

// Lists the names of a recipe's parameters. None where two of them share a name.
fn list_recipe<'k, T: Listing + Keyed<'k>>(
    image: &'k [u8],
    number: u16,
    recipe: &RecipeRow,
    rows: &mut [T],
    filled: usize,
) -> Option<usize>
    requires room { filled + 16 ≤ length rows.old }
    requires ascending { Ascending (key_by (T.Listing.said image.now)) (take filled rows.old) }
    requires fresh { Among (λ x. (T.Listing.said image.now x).recipe ≡ number) (take filled rows.old) → ⊥ }
    ensures { MatchOption result (Distinct T.Listing.name (recipe_at image.now recipe.now) → ⊥) (λ m. RecipeFilled (T.Listing.said image.now) T.Listing.name number (recipe_at image.now recipe.now) rows.old filled m rows.new) }
{
    let mut listed = filled;
    let parameters = parameters_of(recipe);
    for (place, parameter) in parameters.iter().enumerate() {
        listed = list_parameter(image, number, place as u8, parameter, rows, listed)?;
    }
    Some(listed)
}

// A recipe has one name twice.
#[derive(Clone, Copy)]
struct NameTwice {
    recipe: usize,
}

impl From<NameTwice> for Refusal {
    ghost from_gives = { λ twice refusal. refusal ≡ SharedName twice.recipe };

    fn from(twice: NameTwice) -> Refusal {
        Refusal::SharedName {
            recipe: twice.recipe,
        }
    }
}

// Lists the names of all recipes' parameters. Tells the lowest recipe that has one name twice.
fn list_all<'k, T: Listing + Keyed<'k>>(
    image: &'k [u8],
    recipes: &[RecipeRow],
    rows: &mut [T],
) -> Result<usize, NameTwice>
    requires few { length recipes.now ≤ 64 }
    requires room { length recipes.now * 16 ≤ length rows.old }
    ensures { MatchResult result (λ m. AllFilled (T.Listing.said image.now) T.Listing.name (map (recipe_at image.now) recipes.now) rows.old m rows.new) (λ twice. FirstTwice T.Listing.name (map (recipe_at image.now) recipes.now) twice.recipe) }
{
    let mut filled = 0;
    for (recipe, row) in recipes.iter().enumerate() {
        let twice = NameTwice { recipe };
        filled = list_recipe(image, recipe as u16, row, rows, filled).ok_or(twice)?;
    }
    Ok(filled)
}

// The answer for both kinds of names: how many rows are filled, or the lowest recipe that was refused.
fn join(
    long: Result<usize, NameTwice>,
    letter: Result<usize, NameTwice>,
) -> Result<Filled, NameTwice>
    ensures { result ≡ joined long letter }
{
    match (long, letter) {
        (Ok(longs), Ok(letters)) => Ok(Filled { longs, letters }),
        (Err(long), Err(letter)) => Err(NameTwice {
            recipe: long.recipe.min(letter.recipe),
        }),
        (Err(twice), _) | (_, Err(twice)) => Err(twice),
    }
}

// Lists the long names and the letters of the parameters of the first `count` recipes. Refuses the lowest recipe with two parameters that share one.
pub fn derive_names(
    image: &[u8],
    recipes: &[RecipeRow; 64],
    count: usize,
    longs: &mut [LongRow; 1024],
    letters: &mut [LetterRow; 1024],
) -> Result<Filled, Refusal>
    ensures answer { NamesDerived image.now (map (recipe_at image.now) (take count recipes.now)) longs.old letters.old result longs.new letters.new }
    ensures long { (length longs.new ≡ 1024) × (length letters.new ≡ 1024) }
{
    let filled = front(recipes, count);
    let long = list_all(image, filled, longs);
    let letter = list_all(image, filled, letters);
    Ok(join(long, letter)?)
}
