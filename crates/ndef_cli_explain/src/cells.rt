//! Octets in hexadecimal digits, and as characters.
ghost use Rattle.std.specs.Prelude.{◌≡◌, ◌++◌, ◌+◌, ◌%◌, ◌^◌, ◌≤◌, OnOk, length};
ghost use Rattle.std.specs.Int.{w32, to_be_bytes};
ghost use Rattle.std.specs.List.{flat_map};
ghost use Rattle.hex.specs.Hex.{encode_lower};
ghost use Rattle.ndef_cli_explain.specs.Cells.{barred, cell, cells, character, column_of, indentation};
ghost use Rattle.ndef_cli_explain.specs.Cells.{later_row, later_rows, later_start, place_text, start_of};

use ndef_cli::digits_of;
use ndef_value::{Bytes, NoMemory};

/// The number of octets of a line.
pub(crate) const COLUMNS: usize = 8;

/// As many spaces as the octets of a line have columns.
const BLANKS: &[u8] = b"                        ";

/// As many spaces as a column of characters has, and two more.
const COLUMN_BLANKS: &[u8] = b"          ";

/// A number in eight lower-case digits.
fn wide_digits_of(number: u32) -> [u8; 8]
    ensures { result ≡ encode_lower (to_be_bytes w32 number) }
{
    let mut digits = [0; 8];
    let Ok(()) = hex::encode_to_slice(number.to_be_bytes().as_slice(), &mut digits) else {
        unreachable!()
    };
    digits
}

/// The place of a byte with `offset` bytes between it and the place `at`, in 32 bits.
fn place_at(at: u64, offset: u64) -> u32
    ensures { result ≡ (at + offset) % 2 ^ 32 }
{
    let place = (at % 4294967296 + offset % 4294967296) % 4294967296;
    place as u32
}

/// Appends the indentation of a depth.
fn push_indentation(line: &mut Bytes, depth: u8) -> Result<(), NoMemory>
    ensures { OnOk result (line.new ≡ line.old ++ indentation depth) }
{
    if depth == 0 {
        line.extend(b" ")
    } else {
        line.extend(b"   ")
    }
}

/// Appends a place in eight digits; it is `offset` bytes after `at`.
pub(crate) fn push_place(line: &mut Bytes, at: u64, offset: u64) -> Result<(), NoMemory>
    ensures { OnOk result (line.new ≡ line.old ++ place_text (at + offset)) }
{
    line.extend(&wide_digits_of(place_at(at, offset)))
}

/// Appends a place in eight digits, and the indentation of a depth; the place is `offset` bytes after `at`.
pub(crate) fn push_start(line: &mut Bytes, at: u64, offset: u64, depth: u8) -> Result<(), NoMemory>
    ensures { OnOk result (line.new ≡ line.old ++ start_of (at + offset) depth) }
{
    push_place(line, at, offset)?;
    push_indentation(line, depth)
}

/// Appends an octet with a blank before it.
fn push_cell(line: &mut Bytes, octet: u8) -> Result<(), NoMemory>
    ensures { OnOk result (line.new ≡ line.old ++ cell octet) }
{
    line.extend(b" ")?;
    line.extend(&digits_of(octet))
}

/// Appends octets.
fn push_octets(line: &mut Bytes, octets: &[u8]) -> Result<(), NoMemory>
    ensures { OnOk result (line.new ≡ line.old ++ flat_map cell octets.now) }
{
    for octet in octets {
        push_cell(line, *octet)?;
    }
    Ok(())
}

/// Appends at most eight octets, and blanks in place of those that are missing.
pub(crate) fn push_cells(line: &mut Bytes, octets: &[u8]) -> Result<(), NoMemory>
    requires { length octets.now ≤ 8 }
    ensures { OnOk result (line.new ≡ line.old ++ cells octets.now) }
{
    push_octets(line, octets)?;
    line.extend(BLANKS.split_at(24 - 3 * octets.len()).0)
}

/// Appends an octet of printable ASCII, and a dot for any other.
fn push_character(line: &mut Bytes, octet: u8) -> Result<(), NoMemory>
    ensures { OnOk result (line.new ≡ line.old ++ character octet) }
{
    if 0x20 <= octet && octet <= 0x7e {
        line.extend(&[octet])
    } else {
        line.extend(b".")
    }
}

/// Appends octets as characters.
fn push_characters(line: &mut Bytes, octets: &[u8]) -> Result<(), NoMemory>
    ensures { OnOk result (line.new ≡ line.old ++ flat_map character octets.now) }
{
    for octet in octets {
        push_character(line, *octet)?;
    }
    Ok(())
}

/// Appends octets as characters between bars.
fn push_barred(line: &mut Bytes, octets: &[u8]) -> Result<(), NoMemory>
    ensures { OnOk result (line.new ≡ line.old ++ barred octets.now) }
{
    line.extend(b"|")?;
    push_characters(line, octets)?;
    line.extend(b"|")
}

/// Appends the column of characters of at most eight octets, if it is requested.
pub(crate) fn push_column(line: &mut Bytes, characters: bool, octets: &[u8]) -> Result<(), NoMemory>
    requires { length octets.now ≤ 8 }
    ensures { OnOk result (line.new ≡ line.old ++ column_of characters octets.now) }
{
    if !characters {
        return Ok(());
    }
    push_barred(line, octets)?;
    line.extend(COLUMN_BLANKS.split_at(10 - octets.len()).0)
}

/// Appends the beginning of a further line of a field.
fn push_later_start(line: &mut Bytes, depth: u8) -> Result<(), NoMemory>
    ensures { OnOk result (line.new ≡ line.old ++ later_start depth) }
{
    line.extend(b"\n        ")?;
    push_indentation(line, depth)
}

/// Appends the octets of a further line, and their characters if that is requested.
fn push_later_row(line: &mut Bytes, characters: bool, octets: &[u8]) -> Result<(), NoMemory>
    requires { length octets.now ≤ 8 }
    ensures { OnOk result (line.new ≡ line.old ++ later_row characters octets.now) }
{
    if !characters {
        return push_octets(line, octets);
    }
    push_cells(line, octets)?;
    line.extend(b"  ")?;
    push_barred(line, octets)
}

/// Appends the octets after the first line of a field, eight in a line.
pub(crate) fn push_later_rows(
    line: &mut Bytes,
    characters: bool,
    depth: u8,
    octets: &[u8],
) -> Result<(), NoMemory>
    ensures { OnOk result (line.new ≡ line.old ++ later_rows characters depth 0 octets.now) }
{
    let mut rest = octets;
    let mut column = 0;
    while let [_, later @ ..] = rest {
        if column == 0 {
            push_later_start(line, depth)?;
            push_later_row(line, characters, rest.split_at(COLUMNS.min(rest.len())).0)?;
        }
        rest = later;
        column = (column + 1) % COLUMNS;
    }
    Ok(())
}
