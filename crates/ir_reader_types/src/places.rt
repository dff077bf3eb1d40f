// Where each name of a list stands first.

ghost use Rattle.std.specs.Prelude.{◌≡◌, ◌++◌, ◌∷◌, [], List, OnOk, OnErr, length};
ghost use Rattle.ir_types.specs.declared.name.Name.{Name};
ghost use Rattle.ir_reader_types.specs.TypeTable.{HasFirstPlaces};

use indexmap::IndexMap;
use ir_types::Name;
use lists::Copies;
use std::alloc::AllocError;

/// Keeps the place of the next name as its first, where the name has none before.
pub fn keep_place(
    places: &mut IndexMap<Name, u32>,
    name: &Name,
    place: u32,
) -> Result<(), AllocError>
    ensures ok { OnOk result ((names : List Name) → length names ≡ place → HasFirstPlaces names places.old.entries → HasFirstPlaces (names ++ name.now ∷ []) places.new.entries) }
    ensures err { OnErr result (places.new.entries ≡ places.old.entries) }
{
    if places.contains_key(name) {
        return Ok(());
    }
    places.insert(name.copy()?, place)?;
    Ok(())
}
