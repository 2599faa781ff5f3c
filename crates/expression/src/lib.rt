// An AIR's constraints as data: what one reads. specs/ says what a constraint is, what it comes to and what its degree is.
#![tactic(auto)]

// What an expression reads: the columns of the main and the preprocessed trace in the row at hand and in the next,
// the public values, the periodic columns, the three selectors and the numbers.
#[derive(Clone, Copy)]
pub enum Leaf {
    Main(usize),
    MainNext(usize),
    Preprocessed(usize),
    PreprocessedNext(usize),
    Public(usize),
    Periodic(usize),
    IsFirst,
    IsLast,
    IsTransition,
    Number(u32),
}
