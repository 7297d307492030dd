//! Temperatures, in tenths of a kelvin, in records of the external type `example.com:temp`.

use simbegyor::{Fixed, OwnType, Tnf, is_type};

/// A temperature: two octets.
pub struct Temperature;

impl OwnType for Temperature {
    ghost use Rattle.std.specs.Prelude.{codes, refl};
    ghost use Rattle.ndef_format.specs.declared.tnf.Tnf.TheVariants.{External};
    ghost use Rattle.ndef_lang.specs.OwnTypes.{is_type};
    ghost use Rattle.ndef_lang.specs.OwnLaws.{named_type};

    type Payload = Fixed<2>;

    ghost owned = { is_type External (codes "example.com:temp") };

    fn is_own(tnf: Tnf, name: &[u8]) -> bool {
        is_type(Tnf::External, b"example.com:temp", tnf, name)
    }

    ghost named = { named_type External (codes "example.com:temp") refl };

    ghost stay = { λ records more profile other payload few wider h. h };
}
