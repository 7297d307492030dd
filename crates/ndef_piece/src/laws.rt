//! Properties of heads, pieces and messages, for every reader and writer.
ghost use Rattle.ndef_piece.specs.Heads.{HeadsAreUnambiguous, HeadsHaveSizes, HeadersTell};
ghost use Rattle.ndef_piece.specs.Come.{PiecesBegin};
ghost use Rattle.ndef_piece.specs.Conditions.{ConditionsAreInOrder};
ghost use Rattle.ndef_piece.specs.Machine.Reading.{ConditionsAreExact, OneAnswer};
ghost use Rattle.ndef_piece.specs.Bounds.{BoundsOfFronts, BoundsOfHeads};
ghost use Rattle.ndef_piece.specs.Pieces.{HeadsOfPieces, PiecesOfHeads, HeadsOfBytes, LengthsOfPieces};
ghost use Rattle.ndef_piece.specs.Walk.{WalksAreMessages, WalksAreCut, WalksAreCounted, WalksCanEnd, RunsGoOn};
ghost use Rattle.ndef_piece.specs.Field.{OneField, PiecesGoOn};
ghost use Rattle.ndef_piece.specs.Fronts.{FrontsHaveSpots};
ghost use Rattle.ndef_piece.specs.Rest.{RestsSpell, RestsEnd, RestsPastHeads, RestsWithinHeads, RestsCanFollow};

/// No head's octets begin those of another. The octets of a head, 3 to 7, determine it, and the
/// first gives its type name format. So only one answer to an octet is right.
pub fn heads_are_unambiguous()
    ensures apart { HeadsAreUnambiguous }
    ensures sizes { HeadsHaveSizes }
    ensures header { HeadersTell }
    ensures one_answer { OneAnswer }
{}

/// The conditions are those of the reasons 1 to 14, in that order. Where a head is open, one of
/// them holds of an octet exactly where no head goes on with it.
pub fn conditions_are_exact()
    ensures order { ConditionsAreInOrder }
    ensures exact { ConditionsAreExact }
{}

/// The heads that go on after some octets are those with all lengths in some ranges, together.
pub fn lengths_are_independent()
    ensures fronts { BoundsOfFronts }
    ensures heads { BoundsOfHeads }
{}

/// A piece may occur at a spot exactly if its head may. Each head that may occur is that of each
/// piece with its lengths. If the bytes of a piece that may occur continue an open front with
/// some octet, that octet is not refused, and a head that is whole then is the head of the piece.
pub fn heads_are_of_pieces()
    ensures to_heads { HeadsOfPieces }
    ensures to_pieces { PiecesOfHeads }
    ensures bytes { HeadsOfBytes }
    ensures lengths { LengthsOfPieces }
{}

/// The octets of a message up to one determine its field, the whole runs before it and the pieces
/// of an open one. A piece that follows them continues the open run, or ends it.
pub fn next_fields_are_exact()
    ensures one { OneField }
    ensures on { PiecesGoOn }
{}

/// Wherever a message within the limits is cut between pieces there is a spot, and the pieces that
/// may occur at it are those with which such a message continues. It follows from the pieces before.
pub fn fronts_have_spots()
    ensures { FrontsHaveSpots }
{}

/// The messages within the limits are those whose pieces occur in turn, each at the spot after the
/// pieces before it, the last of them ending the message. Such a walk can be cut after any
/// piece.
pub fn messages_are_walks()
    ensures messages { WalksAreMessages }
    ensures cut { WalksAreCut }
    ensures counted { WalksAreCounted }
    ensures end { WalksCanEnd }
    ensures run { RunsGoOn }
{}

/// The bytes that complete a message, from its start to its end: past a head they are the body of a
/// piece and the octets that complete the message after it, and within a head they go on as some head does.
pub fn messages_are_read_by_heads()
    ensures spelling { RestsSpell }
    ensures end { RestsEnd }
    ensures past { RestsPastHeads }
    ensures within { RestsWithinHeads }
    ensures follow { RestsCanFollow }
{}

/// Bytes begin with a whole piece wherever there are as many of them as its lengths say.
pub fn pieces_begin_by_size()
    ensures { PiecesBegin }
{}
