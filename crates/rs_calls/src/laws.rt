//! Laws of the encodings of calls, replies and changes. A law's claim is its contract, and its body is empty.

ghost use Rattle.rs_encode.specs.Form.{IsForm};
ghost use Rattle.rs_calls.specs.Limits.{call, change};
ghost use Rattle.rs_calls.specs.Replies.{call_reply};

/// Proves that what is encoded as a call is read as the same call, whatever follows it, and that nothing else is read as a
/// call: so a call has one encoding, and none begins another one.
pub fn calls_are_encoded()
    ensures { IsForm call }
{}

/// Proves the same of replies to calls.
pub fn replies_are_encoded()
    ensures { IsForm call_reply }
{}

/// Proves the same of changes.
pub fn changes_are_encoded()
    ensures { IsForm change }
{}
