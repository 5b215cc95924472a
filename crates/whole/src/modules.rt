// Each module but the root is named once, by a name row of kind Module.
ghost use Rattle.std.specs.Prelude.{◌≡◌, ℕ, List, map, Decides};
ghost use Rattle.std.specs.List.{count_by};
ghost use Rattle.tree.specs.Rows.{name_at};
ghost use Rattle.whole.specs.Once.{leads_to};
ghost use Rattle.whole.specs.Modules.{NamedOnce, ModulesChecked, EachReached};

use refusal::Refusal;
use register::kind::Kind;
use tree::rows::NameRow;

// Whether a row of kind Module has this module as its number.
fn leads_to(row: &NameRow, module: usize) -> bool
    ensures { result ≡ leads_to «module» row.now }
{
    row.kind == Kind::Module && row.number.is_some_and(|number| number as usize == module)
}

// How many rows of kind Module have this module as their number.
fn times_named(names: &[NameRow], module: usize) -> usize
    ensures { result ≡ count_by (leads_to «module») names.now }
{
    names.iter().filter(|row| leads_to(row, module)).count()
}

// Whether exactly one row of kind Module has this module as its number.
fn is_named_once(names: &[NameRow], module: usize) -> bool
    ensures { (image : List ℕ) → Decides result (NamedOnce (map (name_at image) names.now) «module») }
{
    times_named(names, module) == 1
}

// Refuses the lowest module but the root that is not named exactly once.
pub fn check_modules(names: &[NameRow], modules: usize) -> Result<(), Refusal>
    ensures { (image : List ℕ) → ModulesChecked (map (name_at image) names.now) modules result }
{
    (1..modules)
        .find(|module| !is_named_once(names, *module))
        .map_or(Ok(()), |module| Err(Refusal::ModuleNotNamedOnce { module }))
}

// Each module is reached from the root by exactly one path of rows of kind Module.
pub fn paths_stand() -> u8
    ensures { EachReached }
{
    0
}
