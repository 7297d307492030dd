//! The output of `show`.
use super::super::runs::run_blocks;
use std::test::Fail;

/// Texts.
const TEXTS: &str = r#"
show | 0 | D1 01 08 54 02 65 6E 48 65 6C 6C 6F
message 1 at 0: records 1, bytes 12
 1 tnf 1 type "T" id "" payload 8 text utf-8 "en" "Hello"

show | 0 | D1 01 08 54 02 65 6E 48 65 6C 6C 6F D1 01 08 54 02 65 6E 48 65 6C 6C 6F
message 1 at 0: records 1, bytes 12
 1 tnf 1 type "T" id "" payload 8 text utf-8 "en" "Hello"
message 2 at 12: records 1, bytes 12
 1 tnf 1 type "T" id "" payload 8 text utf-8 "en" "Hello"

show | 0 | D1 01 05 54 00 61 22 5C 0A
message 1 at 0: records 1, bytes 9
 1 tnf 1 type "T" id "" payload 5 text utf-8 "" "a\x22\x5c\x0a"

show | 0 | D1 01 07 54 82 65 6E FE FF 00 41
message 1 at 0: records 1, bytes 11
 1 tnf 1 type "T" id "" payload 7 text utf-16 "en" "A"

show | 0 | B1 01 04 54 82 65 6E D8 56 00 03 3D DE 00
message 1 at 0: records 1, bytes 14
 1 tnf 1 type "T" id "" payload 7 text utf-16 "en" "\xf0\x9f\x98\x80"

show | 0 | D1 01 06 54 00 1F 20 7E 7F 21
message 1 at 0: records 1, bytes 10
 1 tnf 1 type "T" id "" payload 6 text utf-8 "" "\x1f ~\x7f!"
"#;

#[test]
fn texts(rt: HostRuntime) -> Result<(), Fail> {
    run_blocks(&rt, TEXTS)
}

/// URIs.
const URIS: &str = r#"
show | 0 | D1 01 0C 55 01 65 78 61 6D 70 6C 65 2E 63 6F 6D
message 1 at 0: records 1, bytes 16
 1 tnf 1 type "U" id "" payload 12 uri "http://www.example.com"

show --profile standard | 0 | D1 01 02 55 24 61
message 1 at 0: records 1, bytes 6
 1 tnf 1 type "U" id "" payload 2 uri "a"

show | 1 | D1 01 02 55 24 61
refused at 4: 19 UriCode
"#;

#[test]
fn uris(rt: HostRuntime) -> Result<(), Fail> {
    run_blocks(&rt, URIS)
}

/// Smart posters.
const POSTERS: &str = r#"
show | 0 | D1 02 06 53 70 D1 01 02 55 00 61
message 1 at 0: records 1, bytes 11
 1 tnf 1 type "Sp" id "" payload 6 poster records 1 uri "a" titles 0 action none size none media none

show | 0 | D1 02 0D 53 70 91 01 02 55 00 61 51 03 01 61 63 74 03
message 1 at 0: records 1, bytes 18
 1 tnf 1 type "Sp" id "" payload 13 poster records 2 uri "a" titles 0 action other 3 size none media none

show | 0 | B1 02 03 53 70 D1 01 02 56 00 03 55 00 61
message 1 at 0: records 1, bytes 14
 1 tnf 1 type "Sp" id "" payload 6 poster records 1 uri "a" titles 0 action none size none media none

show | 0 | D1 02 26 53 70 91 01 02 55 00 61 11 01 02 54 00 62 11 01 02 54 00 63 11 03 01 61 63 74 01 11 01 04 73 00 00 01 00 51 01 01 74 2F
message 1 at 0: records 1, bytes 43
 1 tnf 1 type "Sp" id "" payload 38 poster records 6 uri "a" titles 2 action save size 256 media "/"
"#;

#[test]
fn posters(rt: HostRuntime) -> Result<(), Fail> {
    run_blocks(&rt, POSTERS)
}

/// Handovers.
const HANDOVERS: &str = r#"
show | 0 | 91 02 0A 48 73 12 D1 02 04 61 63 01 01 30 00 5A 03 01 01 61 2F 62 30 01
message 1 at 0: records 2, bytes 24
 1 tnf 1 type "Hs" id "" payload 10 select version 1.2 carriers 1
 2 tnf 2 type "a/b" id "0" payload 1 other
 carrier 1 power active reference "0" record 2

show | 0 | D1 02 06 48 63 01 03 61 2F 62 05
message 1 at 0: records 1, bytes 11
 1 tnf 1 type "Hc" id "" payload 6 carrier format 1 type "a/b" data 1

show | 0 | D1 02 08 48 72 12 D1 02 02 63 72 01 02
message 1 at 0: records 1, bytes 13
 1 tnf 1 type "Hr" id "" payload 8 request version 1.2 carriers 0

show | 0 | D1 02 01 48 73 12
message 1 at 0: records 1, bytes 6
 1 tnf 1 type "Hs" id "" payload 1 select version 1.2 carriers 0

show | 0 | D1 02 04 48 73 12 D0 00 00
message 1 at 0: records 1, bytes 9
 1 tnf 1 type "Hs" id "" payload 4 select version 1.2 carriers 0

show | 0 | D1 02 09 48 73 12 D1 03 02 65 72 72 01 40
message 1 at 0: records 1, bytes 14
 1 tnf 1 type "Hs" id "" payload 9 select version 1.2 carriers 0
"#;

#[test]
fn handovers(rt: HostRuntime) -> Result<(), Fail> {
    run_blocks(&rt, HANDOVERS)
}

/// Links.
const LINKS: &str = r#"
show | 0 | 99 02 22 01 48 72 68 12 91 02 02 63 72 01 02 11 02 03 61 63 00 00 00 11 02 04 61 63 02 01 39 00 51 02 04 61 63 03 01 68 00 51 01 00 41
message 1 at 0: records 2, bytes 45
 1 tnf 1 type "Hr" id "h" payload 34 request version 1.2 carriers 3
 2 tnf 1 type "A" id "" payload 0 other
 carrier 1 power inactive reference "" record none
 carrier 2 power activating reference "9" record none
 carrier 3 power unknown reference "h" record 1
"#;

#[test]
fn links(rt: HostRuntime) -> Result<(), Fail> {
    run_blocks(&rt, LINKS)
}

/// Other records.
const OTHERS: &str = r#"
show | 0 | D0 00 00
message 1 at 0: records 1, bytes 3
 1 tnf 0 type "" id "" payload 0 other

show --profile standard | 0 | D7 00 00
message 1 at 0: records 1, bytes 3
 1 tnf 5 type "" id "" payload 0 other

show | 0 | C5 00 00 00 00 00
message 1 at 0: records 1, bytes 6
 1 tnf 5 type "" id "" payload 0 other

show | 0 | B5 00 01 41 36 00 01 42 56 00 01 43
message 1 at 0: records 1, bytes 12
 1 tnf 5 type "" id "" payload 3 other

show --records 2 | 0 | 91 01 00 41 51 01 00 42
message 1 at 0: records 2, bytes 8
 1 tnf 1 type "A" id "" payload 0 other
 2 tnf 1 type "B" id "" payload 0 other

show | 0 | 
"#;

#[test]
fn other_records(rt: HostRuntime) -> Result<(), Fail> {
    run_blocks(&rt, OTHERS)
}

/// Refusals.
const REFUSALS: &str = r#"
show | 1 | F5
refused at 0: 7 ChunkAtEnd

show --payload 1000 | 1 | C5 00 00 00 04
refused at 4: 14 PayloadTooLarge

show | 1 | D1 01 00 54
refused at 3: 23 DoesNotFit

show | 1 | D1 01 02 54 00 E2
refused at 5: 23 DoesNotFit

show | 1 | D1 02 05 53 70 D1 01 01 54
refused at 8: 20 UriMissing

show | 1 | D1 02 04 53 70
refused at 4: 23 DoesNotFit

show | 1 | C1 02 00 00 03 E8 53 70 D1
refused at 8: 23 DoesNotFit

show | 1 | D1 02 02 48 73
refused at 4: 23 DoesNotFit

show | 1 | B1 02 03 53 70 D1 01 02 56 00 02
refused at 10: 23 DoesNotFit

show | 1 | B1 02 03 53 70 D1 01 02 46 00 00 01
refused at 11: 23 DoesNotFit

show --records 1 | 1 | 91 01 00 41 51 01 00 42
refused at 0: 10 TooManyRecords

show | 1 | D1 01 08 54 02 65 6E 48 65 6C 6C
refused at 11: 24 EndOfInput

show | 1 | D1 02 0B 53 70 91 01 01 55 00 51 01 02 55
refused at 13: 21 UriAgain

show | 1 | B1 01 04 54 82 65 6E D8 56 00 02
refused at 10: 23 DoesNotFit

show | 1 | D1 01 02 54 80
refused at 4: 23 DoesNotFit

show | 1 | B1 02 06 53 70 C1 01 00 00 01 2C 56
refused at 11: 23 DoesNotFit

show | 1 | D1 02 0E 53 70 91 01 02 55 00 61 51 03 02 61 63 74
refused at 16: 23 DoesNotFit

show | 1 | D1 02 09 48 73 12 D1 03 02 65 72 72 02
refused at 12: 23 DoesNotFit

show | 1 | D0 00 00 51
message 1 at 0: records 1, bytes 3
 1 tnf 0 type "" id "" payload 0 other
refused at 3: 2 BeginMissing
"#;

#[test]
fn refusals(rt: HostRuntime) -> Result<(), Fail> {
    run_blocks(&rt, REFUSALS)
}
