//! The message that is edited, and what is written of it.
ghost use Rattle.std.specs.Prelude.{◌≡◌, ◌≢◌, ◌<◌, ◌≤◌, ◌++◌, ℕ, List, length, map, nat_lt, option_map, IfErr, IfOk, OnOk};
ghost use Rattle.std.specs.List.{find, flat_map, list_any};
ghost use Rattle.ndef_format.specs.Messages.{Item};
ghost use Rattle.ndef_cli_make.specs.Asked.{asked_part};
ghost use Rattle.ndef_cli_make.specs.Edited.{EditsMessage, IsEditedOf, IsEditedOfWords, IsPlaced};
ghost use Rattle.ndef_cli_make.specs.Edited.{IsMessageIn, MakesEdit, MakesEdits, ReadsMessage, ReadsOriginal, WritesRecords};
ghost use Rattle.ndef_cli_make.specs.Edited.{edit_readers, widest_limits};
ghost use Rattle.ndef_cli_make.specs.Editing.{AreNumbers, added_by, altered_by, edit_map, edit_references, flags_in, flags_of};
ghost use Rattle.ndef_cli_make.specs.Editing.{has_number, kept_from, usage_error_after, names, number_of, origin_words};
ghost use Rattle.ndef_cli_make.specs.Editing.{passes, records_in};
ghost use Rattle.ndef_cli_make.specs.Inputs.{is_reader, readers_of};
ghost use Rattle.ndef_cli_make.specs.References.{AreFound, references_of};
ghost use Rattle.ndef_cli_make.specs.declared.fault.Fault.TheVariants.{Memory};

use crate::editing::{Edit, Flags, Origin, edit_parts, parse_edits};
use crate::inputs::{is_reader, is_standard_input, read_named};
use crate::making::{Writing, Written, output_format_of, read_and_make, shown_by, write_records};
use crate::parts::{ParsedPart, part_flags};
use crate::references::find_in_part;
use crate::{Fault, Refused, UsageError};
use ndef_cli::Inputs;
use ndef_message::{ReadError, SliceSource, read_message};
use ndef_nest::Typed;
use ndef_value::{Limits, MOST_PAYLOAD, MOST_PIECES, MOST_RECORDS, Message, Record};
use std::alloc::Global;

/// Limits as large as they go, of a strict reader.
fn widest_limits() -> Limits
    ensures { result ≡ widest_limits }
{
    match Limits::new(MOST_PAYLOAD, MOST_RECORDS, MOST_PIECES) {
        Ok(limits) => limits,
        Err(_) => unreachable!(),
    }
}

/// The one message that the bytes are.
fn message_in(alloc: Global, bytes: &[u8]) -> Result<Message, Fault>
    ensures { IsMessageIn bytes.now result }
{
    let mut source = SliceSource::whole(bytes);
    match read_message::<Typed, _>(alloc, &mut source, widest_limits()) {
        Ok(read) => {
            if read.taken < bytes.len() as u64 {
                return Err(Fault::Refused(Refused::BytesAfter(read.taken)));
            }
            Ok(read.message)
        }
        Err(ReadError::Refused(refusal)) => Err(Fault::Refused(Refused::BadMessage(refusal))),
        Err(ReadError::NoMemory) => Err(Fault::Memory),
        Err(ReadError::ReadFault) => unreachable!(),
    }
}

/// The message in the file of this name.
fn read_file<I: Inputs>(alloc: Global, name: &str, inputs: &mut I) -> Result<Message, Fault>
    ensures { ReadsMessage I.gives name.now inputs.old inputs.new result }
{
    let bytes = read_named(alloc, name, inputs)?;
    message_in(alloc, bytes.as_slice())
}

/// The records of the message that is edited, none if no file is named.
fn read_original<I: Inputs>(
    alloc: Global,
    file: Option<&str>,
    inputs: &mut I,
) -> Result<Vec<Record>, Fault>
    ensures value { ReadsOriginal I.gives (option_map (λ name. name.now) file.entry) inputs.old inputs.new result }
    ensures few { IfOk result (λ old. length old.items ≤ 65535) }
{
    match file {
        Some(name) => Ok(read_file(alloc, name, inputs)?.into_records()),
        None => Ok(Vec::new(alloc)),
    }
}

/// Whether an edit has this number.
fn is_named(edits: &[Edit<ParsedPart<'_>>], number: u32) -> bool
    ensures { result ≡ list_any (has_number number) (map number_of edits.now) }
{
    for edit in edits {
        if edit.names(number) {
            return true;
        }
    }
    false
}

/// Returns the usage error for the number of an edit, after other edits, in a message of `count` records.
fn usage_error_after(
    count: usize,
    others: &[Edit<ParsedPart<'_>>],
    number: Option<u32>,
) -> Option<UsageError>
    ensures { result ≡ usage_error_after count (map number_of others.now) number }
{
    let number = number?;
    if number < 1 || number as usize > count {
        return Some(UsageError::NoSuchRecord(number, count as u64));
    }
    if is_named(others, number) {
        return Some(UsageError::Twice);
    }
    None
}

/// Checks that each number of an edit is that of a record, and of another one than those before it.
fn check_numbers(count: usize, edits: &[Edit<ParsedPart<'_>>]) -> Result<(), Fault>
    ensures { AreNumbers count (map number_of edits.now) result }
{
    for at in 0..edits.len() {
        if let Some(usage_error) = usage_error_after(count, &edits[..at], edits[at].number()) {
            return Err(Fault::UsageAt(at as u64 + 1, usage_error));
        }
    }
    Ok(())
}

/// The edit with the record of its part.
fn make_edit<I: Inputs>(
    alloc: Global,
    edit: &Edit<ParsedPart<'_>>,
    inputs: &mut I,
) -> Result<Edit<Record>, Fault>
    ensures { MakesEdit I.gives (edit_map asked_part edit.now) inputs.old inputs.new result }
{
    match edit {
        Edit::Keeps(flags) => Ok(Edit::Keeps(*flags)),
        Edit::Drops(number, flags) => Ok(Edit::Drops(*number, *flags)),
        Edit::Replaces(number, said) => {
            Ok(Edit::Replaces(*number, read_and_make(alloc, said, inputs)?))
        }
        Edit::Adds(said) => Ok(Edit::Adds(read_and_make(alloc, said, inputs)?)),
    }
}

/// Keeps an edit: the record that it adds comes after the records, any other edit after the others.
fn keep_edit(
    records: &mut Vec<Record>,
    others: &mut Vec<Edit<Record>>,
    edit: Edit<Record>,
) -> Result<(), Fault>
    ensures records { OnOk result (records.new.items ≡ records.old.items ++ added_by edit) }
    ensures others { OnOk result (others.new.items ≡ others.old.items ++ altered_by edit) }
    ensures memory { IfErr result (λ fault. fault ≡ Memory) }
{
    match edit {
        Edit::Adds(record) => records.push(record)?,
        Edit::Drops(_, _) | Edit::Replaces(_, _) => others.push(edit)?,
        Edit::Keeps(_) => {}
    }
    Ok(())
}

/// Makes the records of the edits. Those that edits add come after the records; the other edits are returned.
fn make_edits<I: Inputs>(
    alloc: Global,
    edits: &[Edit<ParsedPart<'_>>],
    inputs: &mut I,
    records: &mut Vec<Record>,
) -> Result<Vec<Edit<Record>>, Fault>
    ensures { MakesEdits I.gives (map (edit_map asked_part) edits.now) inputs.old inputs.new
        records.old.items records.new.items result }
{
    let mut others = Vec::new(alloc);
    for at in 0..edits.len() {
        match make_edit(alloc, &edits[at], inputs) {
            Ok(edit) => keep_edit(records, &mut others, edit)?,
            Err(fault) => return Err(fault.at(at as u64 + 1)),
        }
    }
    Ok(others)
}

/// Takes the first edit of the record with this number out of the edits.
fn take_edit(edits: &mut Vec<Edit<Record>>, number: u32) -> Option<Edit<Record>>
    ensures taken { result ≡ find (names number) edits.old.items }
    ensures others { (other : ℕ) → other ≢ number
        → find (names other) edits.new.items ≡ find (names other) edits.old.items }
{
    for at in 0..edits.len() {
        if edits[at].names(number) {
            return Some(edits.remove(at));
        }
    }
    None
}

/// Puts what an edit leaves in place of the record at an index.
fn put_in_place(records: &mut Vec<Record>, at: usize, edit: Option<Edit<Record>>)
    requires { at < length records.old.items }
    ensures { IsPlaced at edit records.old.items records.new.items }
{
    let Some(edit) = edit else {
        return;
    };
    match edit.into_record() {
        Some(record) => records[at] = record,
        None => {
            let _dropped = records.remove(at);
        }
    }
}

/// Puts what the edits leave in place of each of the first records, from the last of these on.
fn put_all(records: &mut Vec<Record>, count: usize, edits: &mut Vec<Edit<Record>>)
    requires few { count ≤ 65535 }
    requires within { count ≤ length records.old.items }
    ensures { (old added : List Item) → records.old.items ≡ old ++ added → length old ≡ count
        → records.new.items ≡ kept_from 1 edits.old.items old ++ added }
{
    let mut left = count;
    while left > 0 {
        let edit = take_edit(edits, left as u32);
        left -= 1;
        put_in_place(records, left, edit);
    }
}

/// The flags of an edit.
fn flags_of(edit: &Edit<ParsedPart<'_>>) -> Flags
    ensures { result ≡ flags_of (edit_map asked_part edit.now) }
{
    match edit {
        Edit::Keeps(flags) | Edit::Drops(_, flags) => *flags,
        Edit::Replaces(_, said) | Edit::Adds(said) => part_flags(said),
    }
}

/// Each flag that one of the edits has.
fn flags_in(edits: &[Edit<ParsedPart<'_>>]) -> Flags
    ensures { result ≡ flags_in (map (edit_map asked_part) edits.now) }
{
    let mut flags = Flags {
        hex: false,
        raw: false,
    };
    for edit in edits {
        let own = flags_of(edit);
        flags = Flags {
            hex: flags.hex || own.hex,
            raw: flags.raw || own.raw,
        };
    }
    flags
}

/// Finds a record for each reference of the record of an edit.
fn find_in_edit(alloc: Global, records: &[Record], edit: &Edit<ParsedPart<'_>>) -> Result<(), Fault>
    ensures { AreFound records.now (edit_references (edit_map asked_part edit.now)) result }
{
    match edit.record() {
        Some(said) => find_in_part(alloc, records, said),
        None => Ok(()),
    }
}

/// Finds a record for each reference of the records of edits, or refuses the first without one.
fn find_all(alloc: Global, records: &[Record], edits: &[Edit<ParsedPart<'_>>]) -> Result<(), Fault>
    ensures { AreFound records.now
        (flat_map references_of (records_in (map (edit_map asked_part) edits.now))) result }
{
    for edit in edits {
        find_in_edit(alloc, records, edit)?;
    }
    Ok(())
}

/// Returns the output for these records, if there are any.
fn write_edited(
    alloc: Global,
    records: Vec<Record>,
    edits: &[Edit<ParsedPart<'_>>],
    writing: Writing,
) -> Result<Written, Fault>
    ensures { WritesRecords (map (edit_map asked_part) edits.now) writing records.items result }
{
    if records.is_empty() {
        return Err(Fault::Refused(Refused::NoRecords));
    }
    find_all(alloc, records.as_slice(), edits)?;
    let shown = output_format_of(
        writing.size_check,
        shown_by(writing.terminal, flags_in(edits)),
    );
    write_records(alloc, writing.size_check, shown, records)
}

/// Returns the output for the message of these records after the edits.
fn edit_message<I: Inputs>(
    alloc: Global,
    old: Vec<Record>,
    edits: &[Edit<ParsedPart<'_>>],
    writing: Writing,
    inputs: &mut I,
) -> Result<Written, Fault>
    requires { length old.items ≤ 65535 }
    ensures { EditsMessage I.gives (map (edit_map asked_part) edits.now) writing old.items
        inputs.old inputs.new result }
{
    let count = old.len();
    check_numbers(count, edits)?;
    let mut records = old;
    let mut others = make_edits(alloc, edits, inputs, &mut records)?;
    put_all(&mut records, count, &mut others);
    write_edited(alloc, records, edits, writing)
}

/// Whether the payload of the record of an edit is standard input.
fn is_reader_of(edit: &Edit<ParsedPart<'_>>) -> bool
    ensures { result ≡ passes is_reader (edit_map asked_part edit.now) }
{
    match edit.record() {
        Some(said) => is_reader(said),
        None => false,
    }
}

/// The number of records of edits whose payload is standard input.
fn readers_of(edits: &[Edit<ParsedPart<'_>>]) -> usize
    ensures value { result ≡ readers_of (records_in (map (edit_map asked_part) edits.now)) }
    ensures bound { result ≤ length edits.now }
{
    edits.iter().filter(|edit| is_reader_of(*edit)).count()
}

/// Whether more than one input is standard input: the message, or the payload of a part.
fn has_many_readers(file: Option<&str>, edits: &[Edit<ParsedPart<'_>>]) -> bool
    ensures { result ≡ nat_lt 1 (edit_readers (record {
      file = option_map (λ name. name.now) file.entry;
      edits = map (edit_map asked_part) edits.now;
    })) }
{
    let most = if is_standard_input(file) { 0 } else { 1 };
    readers_of(edits) > most
}

/// Returns the output for the message in the file, if one is named, after the edits.
fn edit_file<I: Inputs>(
    alloc: Global,
    file: Option<&str>,
    edits: &[Edit<ParsedPart<'_>>],
    writing: Writing,
    inputs: &mut I,
) -> Result<Written, Fault>
    ensures { IsEditedOf I.gives (record {
      file = option_map (λ name. name.now) file.entry;
      edits = map (edit_map asked_part) edits.now;
    }) writing inputs.old inputs.new result }
{
    if has_many_readers(file, edits) {
        return Err(Fault::Usage(UsageError::TwoReaders));
    }
    let old = read_original(alloc, file, inputs)?;
    edit_message(alloc, old, edits, writing, inputs)
}

/// Returns the output for the message in the file, if one is named, after the edits that the words request.
pub(crate) fn make_edited<I: Inputs>(
    alloc: Global,
    origin: Origin<'_>,
    writing: Writing,
    inputs: &mut I,
) -> Result<Written, Fault>
    ensures { IsEditedOfWords I.gives (origin_words origin.entry) writing inputs.old inputs.new result }
{
    let parts = edit_parts(alloc, origin)?;
    let edits = parse_edits(alloc, origin.file, parts.as_slice())?;
    edit_file(alloc, origin.file, edits.as_slice(), writing, inputs)
}
