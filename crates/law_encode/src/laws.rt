//! Laws of the sizes of encodings. A law's claim is its contract, and its body is empty.

ghost use Rattle.law_encode.specs.Laws.{ProgramsAreShort, RenamedAreShort, StatementsAreShort};

/// Proves that the statements of a text are encoded in at most two bytes for each byte of the text, and 512 for each
/// statement.
pub fn statements_are_short()
    ensures { StatementsAreShort }
{}

/// Proves the same if each name of a table is replaced by any name, as by the system-wide name that it resolves to.
pub fn renamed_are_short()
    ensures { RenamedAreShort }
{}

/// Proves that all statements of a program, with their names replaced so, are encoded together in at most two bytes for
/// each byte of its text, and 4,096 more.
pub fn programs_are_short()
    ensures { ProgramsAreShort }
{}
