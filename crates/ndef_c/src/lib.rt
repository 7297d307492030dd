//! The library as C calls it: it allocates no memory, and keeps nothing between calls except in a checker, in the
//! memory of its caller. `include/ndef.h` states what each call demands, returns and leaves.
//!
//! The files:
//!
//! - `checking.rt`: check. `feeding.rt`, `specs/Feeding.antt`: check of bytes that come in parts.
//! - `run.rt`, `record.rt`, `specs/Walks.antt`: the record at a place. `payload.rt`: its joined payload. `walk.rt`: the
//!   records from a place on, which other calls go over.
//! - `kinds.rt`, `specs/Kinds.antt`: the kind of a record's payload, from its type.
//! - `chunks.rt`, `specs/Chunks.antt`: the places of its pieces. `specs/Arrays.antt`: results written to an array.
//! - `fields.rt`, `field_names.rt`, `payload_fields.rt`, `specs/Fields.antt`: the field of each byte.
//! - `refusal_message.rt`, `specs/RefusalMessages.antt`: the reason of a refusal, in sentences. `hints.rt`,
//!   `specs/Hints.antt`: hints, in sentences and by numbers. `warnings.rt`, `specs/Warnings.antt`: warnings about
//!   a message that is accepted.
//! - `items.rt`, `specs/Items.antt`: a message and all its records, in one call; the message within a payload,
//!   likewise.
//! - `handover_items.rt`, `specs/HandoverItems.antt`: a handover and all its references, in one call.
//!   `reference_items.rt`: the references in its payload. `reference_records.rt`, `specs/ReferenceOrder.antt`: the
//!   records to which they refer.
//! - `layout.rt`, `specs/Layouts.antt`: payloads of a layout that a program gives.
//! - `finding.rt`, `specs/Finding.antt`: the first record with a type or an id.
//! - `writer.rt`, `specs/Writers.antt`: a record written in steps.
//! - `writing.rt`, `specs/Writes.antt`: a record written. `building.rt`, `specs/Built.antt`, `specs/Growing.antt`: a
//!   message built in a buffer. `making.rt`, `specs/PendingRecord.antt`, `content.rt`, `specs/Contents.antt`: a record
//!   whose payload is written in place. `appending.rt`, `specs/Appending.antt`: texts and URIs appended so.
//! - `poster_writing.rt`, `specs/PosterWrites.antt`: a smart poster written in one call. `poster_parts.rt`,
//!   `specs/PosterParts.antt`: its titles and icons. `record_list.rt`, `series_writing.rt`, `specs/RecordList.antt`:
//!   records written one after another.
//! - `handover_making.rt`, `specs/HandoverMaking.antt`: a request or a select written in one call. `handover_parts.rt`,
//!   `specs/HandoverParts.antt`: its alternative carriers.
//! - `normalizing.rt`, `specs/Normalizing.antt`: a message written again, each record in one piece.
//! - `uri.rt`, `uri_parts.rt`, `text.rt`, `carrier.rt`, `alternative.rt`, `request.rt`, `select.rt`, `poster.rt`,
//!   `error.rt`, `numbers.rt`: payloads of each kind. `alternative_writing.rt`, `error_writing.rt`,
//!   `handover_writing.rt`: those of records within posters and handovers, written.
//! - `titles.rt`, `specs/Titles.antt`: the places of the titles and of the media type of a poster.
//! - `icons.rt`, `specs/Icons.antt`: the places of the icons of a poster.
//! - `utf16.rt`: texts from and to UTF-16.
//! - `link.rt`: the links of a message. `message.rt`: its records. `handover.rt`: common parts of requests
//!   and selects. `links.rt`, `references.rt`: all links of a message, all references of an alternative carrier.
//! - `nested.rt`: records of the messages in payloads. `query.rt`, `specs/RecordQuery.antt`: the results for records
//!   that are sought, and their number.
//! - `out.rt`, `buffer.rt`, `specs/Buffers.antt`: octets that are written to the caller's buffer, or counted.
//! - `status.rt`, `status_name.rt`: what calls return. `refusal.rt`, `reasons.rt`: a refusal in numbers, and the names
//!   of reasons. `limits.rt`: limits in numbers. `part.rt`: a part of a payload. `version.rt`: the version.
//! - `laws.rt`: properties that the calls have together.
#![tactic(auto)]

mod alternative;
mod alternative_writing;
mod appending;
mod buffer;
mod building;
mod carrier;
mod checking;
mod chunks;
mod content;
mod error;
mod error_writing;
mod feeding;
mod field_names;
mod fields;
mod finding;
mod handover;
mod handover_items;
mod handover_making;
mod handover_parts;
mod handover_writing;
mod hints;
mod icons;
mod items;
mod kinds;
mod laws;
mod layout;
mod limits;
mod link;
mod links;
mod making;
mod message;
mod nested;
mod normalizing;
mod numbers;
mod out;
mod part;
mod payload;
mod payload_fields;
mod poster;
mod poster_parts;
mod poster_writing;
mod query;
mod reasons;
mod record;
mod record_list;
mod reference_items;
mod reference_records;
mod references;
mod refusal;
mod refusal_message;
mod request;
mod run;
mod select;
mod series_writing;
mod status;
mod status_name;
mod text;
mod titles;
mod uri;
mod uri_parts;
mod utf16;
mod version;
mod walk;
mod warnings;
mod writer;
mod writing;

pub use alternative::NdefAlternative;
pub use alternative::ndef_alternative;
pub use alternative::ndef_reference;
pub use alternative_writing::ndef_write_alternative;
pub use appending::ndef_append_text;
pub use appending::ndef_append_uri;
pub use building::NdefMessageBuilder;
pub use building::ndef_append;
pub use carrier::NdefCarrier;
pub use carrier::ndef_carrier;
pub use carrier::ndef_write_carrier;
pub use checking::NdefChecked;
pub use checking::ndef_check;
pub use chunks::ndef_chunks;
pub use error::NdefError;
pub use error::ndef_error;
pub use error_writing::ndef_write_error;
pub use error_writing::ndef_write_error_number;
pub use feeding::NdefChecker;
pub use feeding::ndef_begin;
pub use feeding::ndef_feed;
pub use field_names::ndef_field_name;
pub use fields::NdefField;
pub use fields::ndef_field_at;
pub use fields::ndef_fields;
pub use fields::ndef_next_field;
pub use finding::ndef_find_id;
pub use finding::ndef_find_type;
pub use handover_items::NdefHandoverParts;
pub use handover_items::ndef_handover_items;
pub use handover_making::NdefSelectWriting;
pub use handover_making::ndef_write_request;
pub use handover_making::ndef_write_select;
pub use handover_parts::NdefAlternativeWriting;
pub use handover_writing::REQUEST;
pub use handover_writing::SELECT;
pub use handover_writing::ndef_write_handover;
pub use hints::HINT_ATTRIBUTES;
pub use hints::HINT_BASE64;
pub use hints::HINT_CODE;
pub use hints::HINT_DIGITS;
pub use hints::HINT_FILE;
pub use hints::HINT_FLIPPER;
pub use hints::HINT_HEXDUMP;
pub use hints::HINT_INTERRUPTED;
pub use hints::HINT_MESSAGE;
pub use hints::HINT_OD;
pub use hints::HINT_PROXMARK;
pub use hints::HINT_STANDARD;
pub use hints::HINT_TERMINATOR;
pub use hints::HINT_TLV;
pub use hints::HINT_UNFINISHED;
pub use hints::HINT_WORDS;
pub use hints::HINT_XXD;
pub use hints::NdefFound;
pub use hints::ndef_find_hint;
pub use hints::ndef_hint;
pub use icons::NdefIcon;
pub use icons::ndef_poster_icons;
pub use items::NdefItem;
pub use items::ndef_items;
pub use items::ndef_items_within;
pub use kinds::ndef_kind;
pub use laws::appended_records_are_held;
pub use laws::checks_are_walked;
pub use laws::feeds_are_checks;
pub use laws::fields_are_stepped;
pub use laws::handover_items_are_exact;
pub use laws::held_records_are_a_message;
pub use laws::links_are_exact;
pub use laws::numbers_are_refused;
pub use laws::one_record_is_there;
pub use laws::records_make_a_message;
pub use laws::writers_write_records;
pub use laws::written_handovers_are_read;
pub use laws::written_posters_are_read;
pub use layout::LAYOUT_COUNTED;
pub use layout::LAYOUT_OCTETS;
pub use layout::LAYOUT_REST;
pub use layout::LAYOUT_UTF8;
pub use layout::LAYOUT_WITHIN;
pub use layout::NdefLaidOut;
pub use layout::NdefLayoutField;
pub use layout::ndef_check_layout;
pub use limits::NdefLimits;
pub use limits::ndef_default_limits;
pub use link::NdefLink;
pub use link::ndef_link_at;
pub use links::ndef_links;
pub use normalizing::ndef_normalize;
pub use numbers::ndef_number;
pub use numbers::ndef_write_action;
pub use numbers::ndef_write_collision;
pub use numbers::ndef_write_size;
pub use part::NdefPart;
pub use payload::ndef_payload;
pub use payload_fields::ndef_payload_fields;
pub use poster::NdefPoster;
pub use poster::ndef_poster;
pub use poster_parts::NdefIconWriting;
pub use poster_parts::NdefTitleWriting;
pub use poster_writing::NdefPosterWriting;
pub use poster_writing::ndef_write_poster;
pub use reasons::ndef_reason_name;
pub use reasons::ndef_reason_sentence;
pub use record::NdefRecord;
pub use record::ndef_record_at;
pub use reference_items::NdefReferenceItem;
pub use references::ndef_references;
pub use refusal_message::ndef_refusal_message;
pub use request::NdefRequest;
pub use request::ndef_request;
pub use select::NdefSelect;
pub use select::ndef_select;
pub use status::BAD_ARGUMENT;
pub use status::BUFFER_TOO_SMALL;
pub use status::END;
pub use status::MORE;
pub use status::OK;
pub use status::REFUSED;
pub use status_name::ndef_status_name;
pub use text::NdefText;
pub use text::ndef_text;
pub use text::ndef_text_in_utf8;
pub use text::ndef_write_text;
pub use titles::ndef_poster_media_type;
pub use titles::ndef_poster_titles;
pub use titles::ndef_title;
pub use uri::ndef_uri;
pub use uri::ndef_write_uri;
pub use uri_parts::NdefUri;
pub use uri_parts::ndef_split_uri;
pub use uri_parts::ndef_uri_prefix;
pub use version::MAJOR;
pub use version::MINOR;
pub use version::PATCH;
pub use version::ndef_version;
pub use warnings::ndef_field_warning;
pub use warnings::ndef_record_warning;
pub use writer::NdefWriter;
pub use writer::ndef_writer_begin;
pub use writer::ndef_writer_next;
pub use writing::NdefWriting;
pub use writing::ndef_write_record;
