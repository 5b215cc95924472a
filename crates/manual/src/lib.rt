// What the manual of the command runner just lays down on parameters, options and modules, each point a theorem from the lawful reading.
#![tactic(auto)]

ghost use Rattle.manual.specs.Arguments.{ArgumentsStand};
ghost use Rattle.manual.specs.Ends.{EndsStand};
ghost use Rattle.manual.specs.Groups.{GroupsStand};
ghost use Rattle.manual.specs.Modules.{ModulesStand};
ghost use Rattle.manual.specs.Options.{OptionsStand};
ghost use Rattle.manual.specs.Recipes.{RecipesStand};
ghost use Rattle.manual.specs.Spellings.{SpellingsStand};

// What a reading tells of an order is what the other theorems speak of.
pub fn groups_stand() -> u8
    ensures { GroupsStand }
{
    0
}

// Arguments, defaults, Plus and Star.
pub fn arguments_stand() -> u8
    ensures { ArgumentsStand }
{
    0
}

// Options and flags.
pub fn options_stand() -> u8
    ensures { OptionsStand }
{
    0
}

// Two spellings of the same switches.
pub fn spellings_stand() -> u8
    ensures { SpellingsStand }
{
    0
}

// The end of options.
pub fn ends_stand() -> u8
    ensures { EndsStand }
{
    0
}

// Several recipes in a line.
pub fn recipes_stand() -> u8
    ensures { RecipesStand }
{
    0
}

// Modules and default recipes.
pub fn modules_stand() -> u8
    ensures { ModulesStand }
{
    0
}
