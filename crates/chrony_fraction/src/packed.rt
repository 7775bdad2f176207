ghost use Rattle.std.specs.Prelude.{◌≡◌, ◌-◌, ◌<◌, ◌≤◌, ◌/◌, ◌%◌, ◌^◌, ◌↔◌, ◌-ℤ◌, ◌≤ℤ◌, ℤ, pos, neg_ℤ, IsSome, IfSome, Some};
ghost use Rattle.chrony_fraction.specs.Packed.{signed, packed_value, IsInRange};

/// A fraction as chrony's messages hold it: a signed exponent e in the top 7 bits and a signed coefficient c in the
/// low 25 bits, both in two's complement, with no hidden bit. Its value is `c * 2^(e - 25)`, in the unit of the field
/// that holds it. Source: candm.h, "Float".
#[derive(Clone, Copy, Debug, Default, PartialEq, Eq, Hash)]
pub struct Packed(pub u32);

impl Packed {
    /// The coefficient c, from -2^24 to 2^24 - 1, and the power x, from -89 to 38, of the value `c * 2^x`.
    pub fn parts(self) -> (i32, i32)
        ensures { result ≡ packed_value self.0 }
    {
        let coefficient = signed_25(self.0 % (1 << 25));
        let exponent = signed_7(self.0 / (1 << 25));
        (coefficient, exponent - 25)
    }

    /// The one packed number with this coefficient and this power of two, as `parts` gives them. `None` exactly where
    /// the coefficient is outside -2^24 to 2^24 - 1 or the power outside -89 to 38. A value is not brought into range
    /// by another power.
    pub fn from_parts(coefficient: i32, exponent: i32) -> Option<Packed>
        ensures found { IsSome result ↔ IsInRange coefficient exponent }
        ensures value { IfSome result (λ p. packed_value p.0 ≡ (coefficient, exponent)) }
        // No other number has them.
        ensures only { (p : Packed) → p.0 < 2 ^ 32 →
            packed_value p.0 ≡ (coefficient, exponent) → result ≡ Some p }
    {
        if !(-(1 << 24)..1 << 24).contains(&coefficient) {
            return None;
        }
        if !(-89..=38).contains(&exponent) {
            return None;
        }
        Some(Packed(joined(exponent_field(exponent), coefficient_field(coefficient))))
    }
}

fn signed_25(field: u32) -> i32
    requires { field < 2 ^ 25 }
    ensures { result ≡ signed 25 field }
{
    if field < 1 << 24 {
        field as i32
    } else {
        field as i32 - (1 << 25)
    }
}

fn signed_7(field: u32) -> i32
    requires { field < 2 ^ 7 }
    ensures { result ≡ signed 7 field }
{
    if field < 1 << 6 {
        field as i32
    } else {
        field as i32 - (1 << 7)
    }
}

// The 25 bits of a coefficient.
fn coefficient_field(coefficient: i32) -> u32
    requires low { neg_ℤ (pos (2 ^ 24)) ≤ℤ coefficient }
    requires high { coefficient ≤ℤ pos (2 ^ 24 - 1) }
    ensures value { signed 25 result ≡ coefficient }
    ensures fits { result < 2 ^ 25 }
{
    if coefficient < 0 {
        (coefficient + (1 << 25)) as u32
    } else {
        coefficient as u32
    }
}

// The 7 bits of the exponent of a power.
fn exponent_field(power: i32) -> u32
    requires low { neg_ℤ (pos 89) ≤ℤ power }
    requires high { power ≤ℤ pos 38 }
    ensures value { signed 7 result -ℤ pos 25 ≡ power }
    ensures fits { result < 2 ^ 7 }
{
    let exponent = power + 25;
    if exponent < 0 {
        (exponent + (1 << 7)) as u32
    } else {
        exponent as u32
    }
}

fn joined(exponent: u32, coefficient: u32) -> u32
    requires top { exponent < 2 ^ 7 }
    requires low { coefficient < 2 ^ 25 }
    ensures top { result / 2 ^ 25 ≡ exponent }
    ensures low { result % 2 ^ 25 ≡ coefficient }
{
    exponent * (1 << 25) + coefficient
}
