// What a command asks of a program.

/// What a command asks of a program besides the rules of the language.
#[derive(Clone, Copy, Debug, PartialEq, Eq)]
pub struct Limits {
    /// The most states of a stage, where tables are asked for.
    pub states: u32,
    /// Whether the program is to have no more than one stage.
    pub one_stage: bool,
    /// Whether each stage is to have a table.
    pub tables: bool,
    /// Whether the stages are to tell what is best, which takes tables.
    pub optimal: bool,
}
