//! The outputs of the jobs on source texts and on code files.

/// The output that `asm` writes for a source text.
#[derive(Clone, Copy)]
pub enum AsmOutput {
    /// The code file of the program.
    File,
    /// The listing of the program.
    Listing,
    /// One line for each fault of the source text.
    Faults,
    /// One line for each procedure and each label of the program.
    Symbols,
}

/// The output that `dis` writes for a code file.
#[derive(Clone, Copy)]
pub enum DisOutput {
    /// The source text.
    Text,
    /// The source text, with the names of procedures.
    Names,
    /// The listing, with the bytes of the code file and their offsets.
    Listing,
    /// The code as statements.
    Statements,
    /// The code as statements, each indented by its depth of nesting.
    Indented,
    /// The code as statements that are grouped into blocks.
    Blocks,
}
