//! Laws of the parts of texts, and of their messages. Each function here is a law: its contract states it, and its body
//! does nothing.

ghost use Rattle.rs_session.specs.PartLaws.{HasEachPart, PartFits, PartIsWithin, PartsAreText};

/// The parts of a text, one after the other, are the text.
pub fn parts_are_text()
    ensures { PartsAreText }
{}

/// A printed reply has each part below the count of its parts, and no other.
pub fn has_each_part()
    ensures { HasEachPart }
{}

/// The message of a part of a reply to a request within its limits is within its limits too.
pub fn part_is_within()
    ensures { PartIsWithin }
{}

/// The message of a part of a reply to a request within its limits fits a datagram.
pub fn part_fits()
    ensures { PartFits }
{}
