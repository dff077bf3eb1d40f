// The first name of a module that has too many bytes.

ghost use Rattle.std.specs.Prelude.{◌≡◌, ◌∷◌, map};
ghost use Rattle.std.specs.Option.{option_map};
ghost use Rattle.ir_types.specs.Denotes.{function_in};
ghost use Rattle.ir_limits.specs.Mentioned.{in_definition};
ghost use Rattle.ir_limits.specs.Limits.{first_long, or_else};
ghost use Rattle.ir_reader_items.specs.Parts.{item_of, nodes_of};
ghost use Rattle.ir_reader.specs.Gathered.{long_of, long_among};

use ir_limits::{LongNames, long_name, long_name_of_function};
use ir_reader_items::{Definition, Part};
use ir_types::Function;

/// What is known of an item's names before functions are read.
#[derive(Clone, Copy, Debug)]
pub enum ItemLong {
    /// The bytes of the first one that has too many.
    Known(Option<u64>),
    /// They are those of a function.
    OfFunction,
}

/// The first of the two counts that is there.
fn first_of(first: Option<u64>, second: Option<u64>) -> Option<u64>
    ensures { result ≡ or_else first second }
{
    match first {
        Some(bytes) => Some(bytes),
        None => second,
    }
}

/// Of a definition: its name, or one that the type uses.
fn long_in_definition(definition: &Definition<'_>) -> Option<u64>
    ensures { result ≡ first_long (definition.now.name ∷ in_definition (option_map nodes_of definition.now.ty)) }
{
    match definition.ty {
        Some(source) => first_of(long_name(&definition.name), source.long),
        None => long_name(&definition.name),
    }
}

/// What is known of a part's names.
pub fn long_in(part: &Part<'_>) -> ItemLong
    ensures { result ≡ long_of (item_of part.now) }
{
    match part {
        Part::Type(definition) => ItemLong::Known(long_in_definition(definition)),
        Part::Variable(variable) => {
            ItemLong::Known(first_of(long_name(&variable.name), variable.ty.long))
        }
        Part::Function(_) => ItemLong::OfFunction,
        Part::Head(_) | Part::Comdat(_) | Part::Attributes(_) | Part::Metadata(_) => {
            ItemLong::Known(None)
        }
    }
}

/// The bytes of the first name in the text's order that has too many: in an item, or in the next of these functions.
pub fn first_long(longs: &[ItemLong], tables: &LongNames<'_>, functions: &[Function]) -> Option<u64>
    ensures { result ≡ long_among longs.now (map (function_in tables.now) functions.now) }
{
    let mut longs_left = longs;
    let mut functions_left = functions;
    'more: while let Some((long, longs_behind)) = longs_left.split_first() {
        let bytes = match long {
            ItemLong::Known(bytes) => *bytes,
            ItemLong::OfFunction => match functions_left.split_first() {
                Some((function, functions_behind)) => {
                    functions_left = functions_behind;
                    long_name_of_function(tables, function)
                }
                None => None,
            },
        };
        if bytes.is_some() {
            return bytes;
        }
        longs_left = longs_behind;
    }
    None
}
