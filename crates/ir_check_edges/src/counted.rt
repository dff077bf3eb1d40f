// How often labels stand in lists.

ghost use Rattle.std.specs.Prelude.{◌≡◌, ◌++◌, ◌≤◌, ◌<◌, length, map, take, IfOk};
ghost use Rattle.ir_types.specs.Denotes.{name_in};
ghost use Rattle.ir_rules.specs.Edges as edges;
ghost use Rattle.ir_check_edges.specs.Counted.{ArePlacesOf};

use ir_types::{Names, ValueId};
use std::alloc::{AllocError, Global};

// The places of labels in a table of names.
fn places_of(alloc: Global, names: &Names, labels: &[ValueId]) -> Result<Vec<u32>, AllocError>
    ensures { IfOk result (λ places. ArePlacesOf names.now labels.now places.items) }
{
    let mut places = Vec::new(alloc);
    for label in labels {
        if (label.0 as usize) >= names.len() {
            return Err(AllocError);
        }
        places.push(label.0)?;
    }
    Ok(places)
}

/// Whether two lists have each name equally often.
///
/// # Errors
///
/// Where memory is short, and where the table lacks one of the labels.
pub fn same_counts(
    alloc: Global,
    names: &Names,
    some: &[ValueId],
    others: &[ValueId],
) -> Result<bool, AllocError>
    ensures { IfOk result (λ b. b ≡ edges.same_counts (map (name_in names.now) some.now) (map (name_in names.now) others.now)) }
{
    let _count = names.len();
    let mut places = places_of(alloc, names, some)?;
    let mut other_places = places_of(alloc, names, others)?;
    places.sort()?;
    other_places.sort()?;
    Ok(places == other_places)
}
