//! The output of `encode`.
use super::super::runs::run_blocks;
use std::test::Fail;

/// Forms, chunks and profiles.
const ENCODES: &str = "
encode | 0 | D1 01 08 54 02 65 6E 48 65 6C 6C 6F
D1 01 08 54 02 65 6E 48 65 6C 6C 6F

encode | 0 | C5 00 00 00 00 00
D5 00 00

encode | 0 | B5 00 01 41 36 00 01 42 56 00 01 43
D5 00 03 41 42 43

encode | 0 | 91 01 00 41 51 01 00 42
91 01 00 41 51 01 00 42

encode | 0 | D8 00 00 00
D0 00 00

encode | 1 | C5 00 00 00 00 00 D0 00 00 51
D5 00 00 D0 00 00

encode | 0 | 

encode | 1 | F5

encode --form long | 0 | D1 01 08 54 02 65 6E 48 65 6C 6C 6F
C1 01 00 00 00 08 54 02 65 6E 48 65 6C 6C 6F

encode --form short | 0 | C5 00 00 00 00 00
D5 00 00

encode --form long | 0 | D5 00 00
C5 00 00 00 00 00

encode --chunk 3 | 0 | D1 01 08 54 02 65 6E 48 65 6C 6C 6F
B1 01 03 54 02 65 6E 36 00 03 48 65 6C 56 00 02 6C 6F

encode --form long --chunk 4 | 0 | D1 01 08 54 02 65 6E 48 65 6C 6C 6F
A1 01 00 00 00 04 54 02 65 6E 48 46 00 00 00 00 04 65 6C 6C 6F

encode --chunk 1 | 0 | D1 01 08 54 02 65 6E 48 65 6C 6C 6F
B1 01 01 54 02 36 00 01 65 36 00 01 6E 36 00 01 48 36 00 01 65 36 00 01 6C 36 00 01 6C 56 00 01 6F

encode --chunk 8 | 0 | D1 01 08 54 02 65 6E 48 65 6C 6C 6F
D1 01 08 54 02 65 6E 48 65 6C 6C 6F

encode --chunk 4294967295 | 0 | D1 01 08 54 02 65 6E 48 65 6C 6C 6F
D1 01 08 54 02 65 6E 48 65 6C 6C 6F

encode --profile standard | 0 | D7 00 00
D5 00 00

encode --profile standard | 0 | D1 01 02 55 24 61
D1 01 02 55 24 61
";

#[test]
fn forms_and_chunks(rt: HostRuntime) -> Result<(), Fail> {
    run_blocks(&rt, ENCODES)
}
