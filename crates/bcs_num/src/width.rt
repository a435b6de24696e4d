//! Widths of integers, and the range of each.
ghost use Rattle.std.specs.Prelude.{◌≡◌, ◌+◌, ◌↔◌, ◌^◌, ◌/◌, IsTrue};
ghost use Rattle.std.specs.Int as int;
ghost use Rattle.bcs_num.specs.Le as spec;
ghost use Rattle.bcs_num.specs.Le.{width_of, IsUnsigned, IsSigned};
ghost use mir.Val.{bits, hbits};

/// The length of the widest integers, in bytes.
pub const GREATEST_LEN: usize = 16;

/// The width of an integer type, signed or unsigned.
#[derive(Clone, Copy, Debug, PartialEq, Eq)]
pub enum Width {
    /// One byte, for `U8` and `I8`.
    W1,
    /// Two bytes, for `U16` and `I16`.
    W2,
    /// Four bytes, for `U32` and `I32`.
    W4,
    /// Eight bytes, for `U64` and `I64`.
    W8,
    /// Sixteen bytes, for `U128` and `I128`.
    W16,
}

impl Width {
    /// The length of an integer of this width, in bytes.
    pub fn byte_len(self) -> usize
        ensures { result ≡ int.byte_len (width_of self) }
    {
        match self {
            Width::W1 => 1,
            Width::W2 => 2,
            Width::W4 => 4,
            Width::W8 => 8,
            Width::W16 => 16,
        }
    }

    /// Whether `number` is in the range of the unsigned type of this width.
    pub fn holds_unsigned(self, number: u128) -> bool
        ensures test { result ≡ spec.holds_unsigned (width_of self) number }
        ensures exact { IsTrue result ↔ IsUnsigned (width_of self) number }
    {
        number <= self.greatest_unsigned()
    }

    /// Whether `number` is in the range of the signed type of this width.
    pub fn holds_signed(self, number: i128) -> bool
        ensures test { result ≡ spec.holds_signed (width_of self) number }
        ensures exact { IsTrue result ↔ IsSigned (width_of self) number }
    {
        if number < 0 {
            number.unsigned_abs() - 1 <= self.greatest_signed()
        } else {
            number.unsigned_abs() <= self.greatest_signed()
        }
    }

    /// The greatest value of the signed type of this width. The least value is one further away from 0.
    pub(crate) fn greatest_signed(self) -> u128
        ensures { result + 1 ≡ 2 ^ hbits (width_of self) }
    {
        self.greatest_unsigned() / 2
    }

    /// The greatest value of the unsigned type of this width.
    pub fn greatest_unsigned(self) -> u128
        ensures { result + 1 ≡ 2 ^ bits (width_of self) }
    {
        match self {
            Width::W1 => u128::from(u8::MAX),
            Width::W2 => u128::from(u16::MAX),
            Width::W4 => u128::from(u32::MAX),
            Width::W8 => u128::from(u64::MAX),
            Width::W16 => u128::MAX,
        }
    }
}
