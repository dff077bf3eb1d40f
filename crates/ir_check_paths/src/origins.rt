// What the names of a function are given to.

/// What a name is given to.
#[derive(Clone, Copy)]
pub enum Origin {
    /// To a parameter.
    Parameter,
    /// To the result of an instruction, by the numbers of its block and of itself in that.
    Result(usize, usize),
    /// To neither.
    Unknown,
}
