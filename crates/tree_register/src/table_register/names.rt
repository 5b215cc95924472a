// Look-ups among the name and module rows.
ghost use Rattle.std.specs.Prelude.{◌≡◌, ◌<◌, ◌&&◌, ◌==◌, map, length, is_some, IfSome};
ghost use Rattle.std.specs.Option.{option_map, option_flatten};
ghost use Rattle.std.specs.List.{slice_get, list_any};
ghost use Rattle.tree.specs.Rows.{module_at, name_at};
ghost use Rattle.register.specs.Kinds.{kind_number};
ghost use Rattle.register.specs.Parameters.{place_of};
ghost use Rattle.tree_register.specs.Names.{is_named, is_of_kind};

use crate::table_register::TableRegister;
use register::kind::Kind;
use table::search::Table;
use tree::keys::NameKey;
use tree::rows::NameRow;

// Whether some name row is of this module and kind.
fn some_of_kind(rows: &[NameRow], module: u16, kind: Kind) -> bool
    ensures { result ≡ list_any (λ row. row.«module» == «module» && kind_number row.kind == kind_number kind) rows.now }
{
    rows.iter()
        .any(|row| row.module == module && row.kind == kind)
}

impl<'a> TableRegister<'a> {
    // The place of the name row of this module and kind with this text.
    pub(crate) fn name_place(&self, module: u16, kind: Kind, text: &[u8]) -> Option<usize>
        ensures within { IfSome result (λ i. i < length self.now.names.now) }
        ensures value { result ≡ place_of (is_named «module» (kind_number kind) text.now) (map (name_at self.now.image.now) self.now.names.now) }
    {
        let names = Table {
            image: self.image,
            rows: self.names,
        };
        names.place(NameKey { module, kind, text })
    }

    // Whether the module has a name row of this kind.
    pub(crate) fn has_kind(&self, module: u16, kind: Kind) -> bool
        ensures { result ≡ is_some (place_of (is_of_kind «module» (kind_number kind)) (map (name_at self.now.image.now) self.now.names.now)) }
    {
        some_of_kind(self.names, module, kind)
    }

    // The module's default recipe.
    pub(crate) fn module_default(&self, module: u16) -> Option<u16>
        ensures { result ≡ option_flatten (option_map (λ x. x.default) (slice_get (map (module_at self.now.image.now) self.now.modules.now) «module»)) }
    {
        self.modules.get(module as usize)?.default
    }
}
