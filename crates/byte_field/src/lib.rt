// GF(2^8), the field of bytes of FIPS 197.
#![tactic(auto)]

ghost use Rattle.std.specs.Prelude.{◌≡◌};
ghost use Rattle.byte_field.specs.Field.{doubled};

// Twice b (FIPS 197: XTIMES).
#[tactic(auto, unfolding(crate::specs::Field::doubled))]
pub fn double(b: u8) -> u8
    ensures { result ≡ doubled b }
{
    (b << 1) ^ ((b >> 7) * 0x1b)
}
