//! The output of `check`.
use super::super::runs::run_blocks;
use std::test::Fail;

/// Messages and refusals.
const CHECKS: &str = "
check | 0 | D1 01 08 54 02 65 6E 48 65 6C 6C 6F
message 1 at 0: records 1, bytes 12

check | 0 | D0 00 00
message 1 at 0: records 1, bytes 3

check | 0 | D8 00 00 00
message 1 at 0: records 1, bytes 4

check | 0 | C5 00 00 00 00 00
message 1 at 0: records 1, bytes 6

check | 0 | B5 00 01 41 36 00 01 42 56 00 01 43
message 1 at 0: records 1, bytes 12

check | 0 | 91 01 00 41 51 01 00 42
message 1 at 0: records 2, bytes 8

check | 0 | D1 01 08 54 02 65 6E 48 65 6C 6C 6F D1 01 08 54 02 65 6E 48 65 6C 6C 6F
message 1 at 0: records 1, bytes 12
message 2 at 12: records 1, bytes 12

check | 1 | D0 00 00 D0 00 00 D5 01
message 1 at 0: records 1, bytes 3
message 2 at 3: records 1, bytes 3
refused at 7: 11 TypeNotEmpty

check | 1 | D0 00 00 51
message 1 at 0: records 1, bytes 3
refused at 3: 2 BeginMissing

check | 0 | 

check | 1 | D1 01 08 54 02 65 6E 48 65 6C 6C
refused at 11: 24 EndOfInput

check | 1 | D7 00 00
refused at 0: 1 ReservedTnf

check | 1 | 51
refused at 0: 2 BeginMissing

check | 1 | 91 01 00 41 D1
refused at 4: 3 BeginAgain

check | 1 | D6
refused at 0: 4 UnchangedOutside

check | 1 | B5 00 01 41 55
refused at 4: 5 ChangedInside

check | 1 | B5 00 01 41 5E
refused at 4: 6 IdInside

check | 1 | F5
refused at 0: 7 ChunkAtEnd

check | 1 | B0
refused at 0: 8 ChunkOfEmpty

check | 1 | D5 01
refused at 1: 11 TypeNotEmpty

check | 1 | D1 00
refused at 1: 12 TypeEmpty

check | 1 | D0 01
refused at 1: 13 EmptyNotEmpty

check | 1 | D0 00 01
refused at 2: 13 EmptyNotEmpty

check | 1 | D8 00 00 01
refused at 3: 13 EmptyNotEmpty

check | 1 | C5 00 FF
refused at 2: 14 PayloadTooLarge

check | 1 | C5 00 00 10 00 00
refused at 6: 24 EndOfInput

check | 1 | C5 00 00 10 00 01
refused at 5: 14 PayloadTooLarge
";

#[test]
fn messages(rt: HostRuntime) -> Result<(), Fail> {
    run_blocks(&rt, CHECKS)
}

/// Each reason by its number and name.
const REASONS: &str = "
check | 1 | D7
refused at 0: 1 ReservedTnf

check | 1 | 51
refused at 0: 2 BeginMissing

check | 1 | 91 01 00 41 D1
refused at 4: 3 BeginAgain

check | 1 | D6
refused at 0: 4 UnchangedOutside

check | 1 | B5 00 01 41 55
refused at 4: 5 ChangedInside

check | 1 | B5 00 01 41 5E
refused at 4: 6 IdInside

check | 1 | F5
refused at 0: 7 ChunkAtEnd

check | 1 | B0
refused at 0: 8 ChunkOfEmpty

check --pieces 1 | 1 | B5
refused at 0: 9 TooManyPieces

check --records 1 | 1 | 91
refused at 0: 10 TooManyRecords

check | 1 | D5 01
refused at 1: 11 TypeNotEmpty

check | 1 | D1 00
refused at 1: 12 TypeEmpty

check | 1 | D0 01
refused at 1: 13 EmptyNotEmpty

check --payload 10 | 1 | D5 00 0B
refused at 2: 14 PayloadTooLarge

check | 1 | D1 01 01 54 40
refused at 4: 15 TextBit

check | 1 | D1 01 03 54 01 80
refused at 5: 16 Language

check | 1 | D1 01 02 54 00 80
refused at 5: 17 Utf8

check | 1 | D1 01 03 54 80 DC
refused at 5: 18 Utf16

check | 1 | D1 01 01 55 24
refused at 4: 19 UriCode

check | 1 | D1 02 05 53 70 D5
refused at 5: 20 UriMissing

check | 1 | D1 02 0B 53 70 91 01 01 55 00 51 01 02 55
refused at 13: 21 UriAgain

check | 1 | D1 02 01 48 73 22
refused at 5: 22 Version

check | 1 | D1 01 02 54 02
refused at 4: 23 DoesNotFit

check | 1 | D1 01 08 54
refused at 4: 24 EndOfInput

check | 1 | D1 02 08 48 72 12 D0
refused at 6: 25 CollisionMissing
";

#[test]
fn reasons(rt: HostRuntime) -> Result<(), Fail> {
    run_blocks(&rt, REASONS)
}

/// Limits and profiles.
const LIMITS: &str = "
check --payload 10 | 1 | D5 00 0B
refused at 2: 14 PayloadTooLarge

check --payload=2 | 1 | B5 00 02 41 42 56 00 01
refused at 7: 14 PayloadTooLarge

check --payload 1000 | 1 | C5 00 00 00 04
refused at 4: 14 PayloadTooLarge

check --payload 4294967295 | 1 | C5 00 FF
refused at 3: 24 EndOfInput

check --records 1 | 1 | 91 01 00 41 51 01 00 42
refused at 0: 10 TooManyRecords

check --records 2 | 0 | 91 01 00 41 51 01 00 42
message 1 at 0: records 2, bytes 8

check --pieces 1 | 1 | B5
refused at 0: 9 TooManyPieces

check --pieces 2 | 1 | B5 00 01 41 36 00 01 42 56 00 01 43
refused at 4: 9 TooManyPieces

check --pieces 3 | 0 | B5 00 01 41 36 00 01 42 56 00 01 43
message 1 at 0: records 1, bytes 12

check --profile standard | 0 | D7 00 00
message 1 at 0: records 1, bytes 3

check --profile strict | 1 | D7 00 00
refused at 0: 1 ReservedTnf

check --records 65535 --pieces 65535 --payload 8 | 0 | D1 01 08 54 02 65 6E 48 65 6C 6C 6F
message 1 at 0: records 1, bytes 12
";

#[test]
fn limits(rt: HostRuntime) -> Result<(), Fail> {
    run_blocks(&rt, LIMITS)
}
