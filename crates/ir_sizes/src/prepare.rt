// What steps into types need, prepared once for each type, so that no step goes over the members before or through names.
ghost use Rattle.std.specs.Prelude.{◌≡◌, List, IfOk, OnOk, OnErr};
ghost use Rattle.ir_types.specs.declared.memory_type.TypeName.{TypeName};
ghost use Rattle.ir_types.specs.Types.{AreTypes};
ghost use Rattle.ir_types.specs.Sizes.{AreExtents};
ghost use Rattle.ir_sizes.specs.Known.{AreSmall};
ghost use Rattle.ir_sizes.specs.Definitions.{names_in};
ghost use Rattle.ir_sizes.specs.Prepared.{end_at, begin_at, AreFirstSteps, AreSteps};

use crate::begins::begins_behind;
use crate::ends::{ends_of, known_end};
use ir_types::{Extent, MemTy, TypeId, TypeName};
use std::alloc::{AllocError, Global};
use std::marker::Model;

/// Where the names of types lead, and where the members of structs begin.
#[derive(Drop, Debug)]
pub struct Steps {
    ends: Vec<Option<TypeId>>,
    starts: Vec<usize>,
    begins: Vec<u64>,
}

impl Model for Steps {
    ghost use Rattle.ir_sizes.specs.Prepared.{StepLists};

    ghost Value = { StepLists };

    ghost view = { λ s. record { ends = s.ends.items; starts = s.starts.items; begins = s.begins.items } };
}

/// What steps into these types need.
///
/// # Errors
///
/// Where there is no memory.
pub fn steps_of(
    alloc: Global,
    types: &[MemTy],
    names: &[TypeName],
    extents: &[Extent],
) -> Result<Steps, AllocError>
    requires types { AreTypes (names_in names.now) 0 types.now }
    requires extents { AreExtents types.now names.now extents.now }
    ensures { IfOk result (λ steps. AreSteps types.now names.now extents.now steps) }
{
    let ends = ends_of(alloc, types, names, extents)?;
    let mut starts = Vec::new(alloc);
    let mut begins = Vec::new(alloc);
    begins_behind(types, extents, &mut starts, &mut begins)?;
    Ok(Steps {
        ends,
        starts,
        begins,
    })
}

/// Prepares the same for the types behind the first ones, among which all definitions stand.
///
/// # Errors
///
/// Where there is no memory; then the steps stay as they are.
pub fn steps_behind(
    types: &[MemTy],
    extents: &[Extent],
    steps: &mut Steps,
) -> Result<(), AllocError>
    requires small { AreSmall extents.now }
    ensures are { OnOk result ((names : List TypeName) → AreExtents types.now names extents.now → AreFirstSteps types.now names extents.now steps.old → AreSteps types.now names extents.now steps.new) }
    ensures stay { OnErr result (steps.new ≡ steps.old) }
{
    let (starts, begins) = (steps.starts.len(), steps.begins.len());
    match begins_behind(types, extents, &mut steps.starts, &mut steps.begins) {
        Ok(()) => Ok(()),
        Err(error) => {
            steps.starts.truncate(starts);
            steps.begins.truncate(begins);
            Err(error)
        }
    }
}

impl Steps {
    /// Where the name at a place leads.
    pub fn end_of_name(&self, name: u32) -> Option<TypeId>
        ensures { result ≡ end_at self.now.ends name }
    {
        known_end(self.ends.as_slice(), name)
    }

    /// Where a member of the struct at a place begins.
    pub fn begin(&self, place: TypeId, member: usize) -> Option<u64>
        ensures { result ≡ begin_at self.now place member }
    {
        let start = *self.starts.get(place.0 as usize)?;
        self.begins.get(start.checked_add(member)?).copied()
    }
}
