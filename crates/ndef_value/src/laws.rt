//! Properties of the format, for every reader and writer.
ghost use Rattle.ndef_format.specs.Reasons.{RanksAreApart};
ghost use Rattle.ndef_format.specs.Laws.{OneMeaning, StrictIsRead, CanonicalSpells, CanonicalIsShortest, MessagesAreBounded};

/// Bytes that begin with the spelling of a message are the spelling of no other message, with other
/// bytes after it: a byte string spells at most one message, and no spelling begins another. What a
/// strict reader takes, each reader takes.
pub fn one_meaning()
    ensures once { OneMeaning }
    ensures strict { StrictIsRead }
{}

/// The canonical spelling of some records spells them.
pub fn canonical_is_a_spelling()
    ensures { CanonicalSpells }
{}

/// No spelling of a message is shorter than the canonical one.
pub fn canonical_is_shortest()
    ensures { CanonicalIsShortest }
{}

/// A message within the limits has at most the greatest length that they allow.
pub fn messages_are_bounded()
    ensures { MessagesAreBounded }
{}

/// Among some reasons exactly one is tried first: no two have one rank.
pub fn ranks_are_apart()
    ensures { RanksAreApart }
{}
