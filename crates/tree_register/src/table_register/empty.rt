// The register over no rows.
ghost use Rattle.std.specs.Prelude.{◌≡◌, []};

use crate::table_register::TableRegister;

impl TableRegister<'static> {
    // Without modules, names and recipes: what stands for a refused image.
    pub fn empty() -> TableRegister<'static>
        ensures modules { result.modules.now ≡ [] }
        ensures names { result.names.now ≡ [] }
        ensures recipes { result.recipes.now ≡ [] }
    {
        TableRegister {
            image: &[],
            modules: &[],
            names: &[],
            recipes: &[],
            longs: &[],
            letters: &[],
        }
    }
}
