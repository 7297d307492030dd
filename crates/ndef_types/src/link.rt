//! The links of a message.
ghost use Rattle.std.specs.Iterator.Adapters.{IterYieldsInOrder, IterYieldsInReverse};
ghost use Rattle.std.specs.Prelude.{◌≡◌, ◌≢◌, ◌<◌, ◌^◌, ◌++◌, ◌∷◌, ◌↔◌, ◌⊎◌, [], Some, List, length, map, slice_get, option_map, IfOk, IsErrOf, IsTrue, OnErr, OnOk};
ghost use Rattle.std.specs.Slice.Iter.{iter_rest};
ghost use Rattle.std.specs.Bool.{MatchBool};
ghost use Rattle.std.specs.List.{AllByRecursion, find};
ghost use Rattle.ndef_format.specs.Messages.{Item as OuterRecord, run_record};
ghost use Rattle.ndef_format.specs.declared.profile.Profile.TheVariants.{Strict};
ghost use Rattle.ndef_value.specs.declared.limits.TheConstants.{MOST_RECORDS};
ghost use Rattle.ndef_format.specs.Kinds.{kind_of};
ghost use Rattle.ndef_format.specs.declared.kind.Kind.TheVariants as kinds;
ghost use Rattle.ndef_format.specs.Nested.{IsNest};
ghost use Rattle.ndef_format.specs.declared.table.Table.{Table};
ghost use Rattle.ndef_format.specs.declared.table.Table.TheVariants.{SmartPoster};
ghost use Rattle.ndef_types.specs.Contents.{IsFirstOf};
ghost use Rattle.ndef_types.specs.declared.link.LinkError.TheVariants as errors;
ghost use Rattle.ndef_types.specs.Ids.{FindsFirsts};
ghost use Rattle.ndef_types.specs.Links.{AreLinks, FindsLinks, HandoverIsChunked, HasCarriers, HasLinks, HasWholeCarrier, IsHandoverRecord, LinksOf, StandsForLinks, alternatives, is_handover};

use crate::accepting::{accept, accept_item};
use crate::contents::is_kind;
use crate::fields::after_first;
use crate::ids::{Ids, Outer, index_of};
use crate::nested::view_nested;
use crate::{Ac, AlternativeParts};
use ndef_lang::Kind;
use ndef_message::{Item, View};
use ndef_nest::Nest;
use ndef_value::{Message, NoMemory, Profile, Record, Refusal};
use std::alloc::Global;
use std::marker::Model;
use std::slice;
use thiserror::Error;

/// An alternative carrier of a handover (Connection Handover 1.2, Alternative Carrier record), and the
/// record that it refers to.
#[derive(Debug, Drop, PartialEq, Eq, Hash)]
pub struct Link {
    /// The alternative carrier.
    pub ac: Ac,
    /// The index from 0 of the first record of the message whose id is the carrier reference; none for
    /// an empty reference, or where no record has that id. The handover record counts too.
    pub index: Option<usize>,
}

/// The links of a message, in the order of its alternative carriers.
#[derive(Debug, Drop)]
pub struct Links {
    links: Vec<Link>,
}

impl Model for Links {
    ghost use Rattle.std.specs.Prelude.{List};
    ghost use Rattle.ndef_types.specs.declared.link.Link.{Link};

    ghost Value = { List Link };

    ghost view = { λ l. l.links.items };
}

impl Links {
    ghost use Rattle.ndef_types.specs.declared.link.Link.{Link as Each};

    /// None. It allocates no memory.
    pub(crate) fn new(alloc: Global) -> Links
        ensures { result ≡ [] }
    {
        Links {
            links: Vec::new(alloc),
        }
    }

    /// One more.
    pub(crate) fn push(&mut self, link: Link) -> Result<(), NoMemory>
        ensures { OnOk result (self.new ≡ self.old ++ link ∷ []) }
    {
        Ok(self.links.push(link)?)
    }

    /// The number of links.
    pub fn len(&self) -> usize
        ensures { result ≡ length self.now }
    {
        self.links.len()
    }

    /// Whether there is none.
    pub fn is_empty(&self) -> bool
        ensures { IsTrue result ↔ (self.now ≡ []) }
    {
        self.links.is_empty()
    }

    /// The link at a place, counted from 0; none from `len` on.
    pub fn get(&self, index: usize) -> Option<&Link>
        ensures { option_map (λ l. l.now) result ≡ slice_get self.now index }
    {
        self.links.get(index)
    }

    /// The links one after another. Each call starts from the first.
    pub fn iter(&self) -> slice::Iter<'_, Link>
        ensures rest { iter_rest result ≡ self.now }
        ensures bound { length (iter_rest result) < 2 ^ 64 }
        // It gives them in order, or from the back.
        ensures runs { IterYieldsInOrder Each }
        ensures runs_back { IterYieldsInReverse Each }
    {
        self.links.iter()
    }
}

impl<'a> IntoIterator for &'a Links {
    ghost use Rattle.ndef_types.specs.declared.link.Link.{Link as Each};

    type Item = &'a Link;

    type IntoIter = slice::Iter<'a, Link>;

    ghost into_iter_gives = { λ links it.
        (iter_rest it ≡ links.now) × (length (iter_rest it) < 2 ^ 64) × IterYieldsInOrder Each };

    fn into_iter(self) -> slice::Iter<'a, Link> {
        self.iter()
    }
}

/// Why the links of a message aren't known, in the order in which the reasons are tried.
#[derive(Clone, Copy, Debug, Drop, PartialEq, Eq, Hash, Error)]
pub enum LinkError {
    /// The payload of the handover record isn't in its set: the refusal is that of its decoding, and
    /// the place is in that payload.
    #[error(transparent)]
    Refused(Refusal),
    /// An allocation failed.
    #[error("no memory")]
    NoMemory,
}

impl From<NoMemory> for LinkError {
    ghost from_gives = { λ _ error. error ≡ errors.NoMemory };

    fn from(_: NoMemory) -> LinkError {
        LinkError::NoMemory
    }
}

/// Whether a handover has an alternative carrier.
fn has_alternative(handover: &View<'_>) -> bool
    ensures { MatchBool result (alternatives (map run_record handover.now.runs) ≢ [])
        (alternatives (map run_record handover.now.runs) ≡ []) }
{
    for item in handover.items() {
        if is_kind(Kind::of(item.tnf(), item.kind()), Kind::Alternative) {
            return true;
        }
    }
    false
}

/// The links of the alternative carriers of a handover, to the records with these ids.
fn links_of<'a>(alloc: Global, ids: &Ids<'a>, handover: &View<'a>) -> Result<Links, NoMemory>
    requires { AllByRecursion HasWholeCarrier handover.now.runs }
    ensures { (outer : List OuterRecord) → FindsFirsts outer ids.now
        → IfOk result (AreLinks outer (alternatives (map run_record handover.now.runs))) }
{
    let mut links = Links::new(alloc);
    for item in handover.items() {
        if is_kind(Kind::of(item.tnf(), item.kind()), Kind::Alternative) {
            let Some(payload) = item.whole() else {
                unreachable!()
            };
            let parts = AlternativeParts::new(payload);
            let index = index_of(ids, parts.reference());
            let ac = parts.to_value(alloc)?;
            links.push(Link { ac, index })?;
        }
    }
    Ok(links)
}

/// The links in the payload of a handover, to records of the outer message.
fn read_links<'a, O: Outer>(
    alloc: Global,
    outer: &'a O,
    payload: &'a [u8],
    profile: Profile,
) -> Result<Links, NoMemory>
    requires { (table : Table) × (table ≢ SmartPoster) × IsNest table MOST_RECORDS profile payload.now }
    ensures value { IfOk result (StandsForLinks profile (O.items outer.now) payload.now) }
    ensures memory { OnErr result (HasCarriers profile payload.now) }
{
    let bytes = after_first(payload);
    if bytes.is_empty() {
        return Ok(Links::new(alloc));
    }
    let handover = view_nested(bytes, profile);
    if !has_alternative(&handover) {
        return Ok(Links::new(alloc));
    }
    let ids = outer.ids(alloc)?;
    links_of(alloc, &ids, &handover)
}

/// Whether a record is a handover request or select.
fn is_handover(item: &Record) -> bool
    ensures { IsTrue result ↔ IsHandoverRecord item.now }
{
    let kind = Kind::of(item.tnf(), item.kind());
    is_kind(kind, Kind::Request) || is_kind(kind, Kind::Select)
}

/// The first handover request or select.
fn first_handover(records: &[Record]) -> Option<&Record>
    ensures { IsFirstOf IsHandoverRecord records.now (option_map (λ r. r.now) result) }
{
    for item in records {
        if is_handover(item) {
            return Some(item);
        }
    }
    None
}

/// The links of a handover record, to records of the outer message.
fn links_of_handover(
    alloc: Global,
    outer: &Message,
    handover: &Record,
    profile: Profile,
) -> Result<Links, LinkError>
    requires { IsHandoverRecord handover.now }
    ensures links { LinksOf profile outer.now (Some handover.now) result }
    ensures memory { IsErrOf result LinkError.NoMemory → HasCarriers profile handover.now.payload }
{
    let kind = Kind::of(handover.tnf(), handover.kind());
    if let Err(refusal) = accept::<Nest>(kind, profile, handover.payload()) {
        return Err(LinkError::Refused(refusal));
    }
    Ok(read_links(alloc, outer, handover.payload(), profile)?)
}

/// The links of a message as a strict reader takes it (Connection Handover 1.2, Alternative Carrier
/// record): the alternative carriers of its first handover request or select, in order, each with the
/// index of the record that it refers to. Without a handover or an alternative carrier there are none, and no
/// memory is allocated.
///
/// The payload of the handover is refused as `Request::decode` or `Select::decode` refuses it.
pub fn carriers(alloc: Global, message: &Message) -> Result<Links, LinkError>
    ensures links { FindsLinks Strict message.now result }
    ensures memory { IsErrOf result LinkError.NoMemory → HasLinks Strict message.now }
{
    carriers_as(alloc, message, Profile::Strict)
}

/// The links of a message as a reader of the profile takes it; see `carriers`.
pub fn carriers_as(alloc: Global, message: &Message, profile: Profile) -> Result<Links, LinkError>
    ensures links { FindsLinks profile message.now result }
    ensures memory { IsErrOf result LinkError.NoMemory → HasLinks profile message.now }
{
    match first_handover(message.records()) {
        Some(handover) => links_of_handover(alloc, message, handover, profile),
        None => Ok(Links::new(alloc)),
    }
}

/// Whether the kind is that of a handover request or select.
fn is_handover_kind(kind: Kind) -> bool
    ensures { result ≡ is_handover kind }
{
    match kind {
        Kind::Request | Kind::Select => true,
        _ => false,
    }
}

/// The first handover request or select of a message that is viewed.
fn viewed_handover<'a>(view: &View<'a>) -> Option<Item<'a>>
    ensures { result ≡ find (λ r. is_handover (kind_of (run_record r).tnf (run_record r).kind)) view.now.runs }
{
    for item in view.items() {
        if is_handover_kind(Kind::of(item.tnf(), item.kind())) {
            return Some(item);
        }
    }
    None
}

/// The links of a handover record that is viewed, to records of the outer message.
fn links_of_viewed(alloc: Global, outer: &View<'_>, handover: &Item<'_>) -> Result<Links, LinkError>
    requires { IsHandoverRecord (run_record handover.now) }
    ensures links { LinksOf outer.now.profile (map run_record outer.now.runs) (Some (run_record handover.now)) result }
    ensures memory { IsErrOf result LinkError.NoMemory
        → (handover.now.later ≢ []) ⊎ HasCarriers outer.now.profile (run_record handover.now).payload }
{
    let profile = outer.profile();
    let kind = Kind::of(handover.tnf(), handover.kind());
    if let Err(refusal) = accept_item::<Nest>(kind, profile, handover) {
        return Err(LinkError::Refused(refusal));
    }
    if let Some(payload) = handover.whole() {
        return Ok(read_links(alloc, outer, payload, profile)?);
    }
    let payload = handover.joined(alloc)?;
    Ok(read_links(alloc, outer, payload.as_slice(), profile)?)
}

/// The links of a message that is viewed, for a reader of the view's profile. Without a handover there are none, and
/// no memory is allocated, nor for a handover that is not chunked and has no alternative carrier. Refusals as for
/// `carriers`: they come before `NoMemory`.
pub fn carriers_view(alloc: Global, view: &View<'_>) -> Result<Links, LinkError>
    ensures links { FindsLinks view.now.profile (map run_record view.now.runs) result }
    ensures memory { IsErrOf result LinkError.NoMemory
        → HandoverIsChunked view.now.runs ⊎ HasLinks view.now.profile (map run_record view.now.runs) }
{
    match viewed_handover(view) {
        Some(handover) => links_of_viewed(alloc, view, &handover),
        None => Ok(Links::new(alloc)),
    }
}
