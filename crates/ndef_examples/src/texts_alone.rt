//! Texts are checked (RTD Text 1.0), and any other payload will do.
ghost use Rattle.std.specs.Prelude.{◌≡◌};
ghost use Rattle.ndef_examples.specs.ReadAs.{read_type};

use simbegyor::{Kind, Language, Leaf, Profile, Reason, RecordLanguage, Tnf};

/// The state of reading a payload: of a text, or of any octets.
#[derive(Clone, Copy, Debug)]
pub struct TextsAlone {
    leaf: Leaf,
}

/// The kind as which a payload of a type is read.
fn read_type(tnf: Tnf, name: &[u8]) -> Kind
    ensures { result ≡ read_type tnf name.now }
{
    match Kind::of(tnf, name) {
        Kind::Text => Kind::Text,
        _ => Kind::Other,
    }
}

impl RecordLanguage for TextsAlone {
    ghost use Rattle.ndef_lang.specs.contracts.leaf.LeafLanguage.TheImpl.Laws as laws;
    ghost use Rattle.ndef_lang.specs.KindLaws.{takes_by_kind};
    ghost use Rattle.ndef_lang.specs.ProfileLaws.{payload_for_more};
    ghost use Rattle.ndef_examples.specs.ReadAs.{read_as, read_type};

    ghost payloads = { λ tnf name. ⟦<Leaf as Language>⟧.payloads (read_type tnf name) };

    ghost reasons = { λ tnf name. ⟦<Leaf as Language>⟧.reasons (read_type tnf name) };

    ghost future = { λ state. ⟦<Leaf as Language>⟧.future state.leaf };

    ghost reached = { λ state tnf name. ⟦<Leaf as Language>⟧.reached state.leaf (read_type tnf name) };

    ghost fitting = { λ state. ⟦<Leaf as Language>⟧.fitting state.leaf };

    ghost reason_of_last = { λ state. ⟦<Leaf as Language>⟧.reason_of_last state.leaf };

    fn has(tnf: Tnf, name: &[u8], records: u32, profile: Profile, payload: &[u8]) -> bool {
        <Leaf as Language>::has(read_type(tnf, name), records, profile, payload)
    }

    fn start(tnf: Tnf, name: &[u8], records: u32, profile: Profile) -> Self {
        TextsAlone {
            leaf: <Leaf as Language>::start(read_type(tnf, name), records, profile),
        }
    }

    fn step(&mut self, byte: u8) {
        Language::step(&mut self.leaf, byte);
    }

    fn step_all(&mut self, bytes: &[u8], lo: u64, hi: u64) -> usize {
        Language::step_all(&mut self.leaf, bytes, lo, hi)
    }

    fn fits(&self, lo: u64, hi: u64) -> bool {
        Language::fits(&self.leaf, lo, hi)
    }

    fn is_open(&self) -> bool {
        self.leaf.is_any()
    }

    fn reason(&self) -> Reason {
        Language::reason(&self.leaf)
    }

    ghost exact = { λ state. laws.exact-law state.leaf };

    ghost future_octets = { λ state. laws.future_octets-law state.leaf };

    ghost payloads_are_octets = { λ tnf name. laws.payloads_are_octets-law (read_type tnf name) };

    ghost stay = { λ tnf name records more profile other s few a h.
        payload_for_more (read_type tnf name) profile other s a h };

    ghost others = { takes_by_kind (λ kind. ⟦<Leaf as Language>⟧.payloads (read_as kind)) (λ records profile s h. h) };
}
