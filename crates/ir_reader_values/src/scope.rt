// What places in a function stand for, while it is read.

use ir_reader_types::Tables;
use ir_types::Names;

/// The names of a function, and the tables of its module.
#[derive(Drop, Debug)]
pub struct Scope {
    /// The names of parameters, blocks and values.
    pub names: Names,
    /// The names of symbols and types, and the types.
    pub tables: Tables,
}
