//! Laws of texts. A law's claim is its contract, and its body is empty.

ghost use Rattle.law_parse.specs.Laws.{FaultOnce, PrintedIsRead, SpelledHasNoFault, SpelledKeepsLimits, SpelledOrFaulty, StatementOnce};

/// Proves that a text is that of at most one statement.
pub fn statement_once()
    ensures { StatementOnce }
{}

/// Proves that a text has its fault at one byte offset.
pub fn fault_once()
    ensures { FaultOnce }
{}

/// Proves that each text is that of a statement, or has a fault.
pub fn spelled_or_faulty()
    ensures { SpelledOrFaulty }
{}

/// Proves that the text of a statement has no fault.
pub fn spelled_has_no_fault()
    ensures { SpelledHasNoFault }
{}

/// Proves the round trip: the text `print_stmt` appends for a statement that has a text is one of its texts.
pub fn printed_is_read()
    ensures { PrintedIsRead }
{}

/// Proves that a statement that has a text keeps the limits of statements.
pub fn spelled_keeps_limits()
    ensures { SpelledKeepsLimits }
{}
