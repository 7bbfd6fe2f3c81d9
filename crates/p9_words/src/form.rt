//! What a field of a message holds.

ghost use Rattle.std.specs.Prelude.{◌≡◌, ◌-◌, ◌^◌};
ghost use Rattle.p9_words.specs.Form.{bytes_of, radix_of};

/// How many bytes of a frame a number takes.
#[derive(Clone, Copy, Debug, PartialEq, Eq)]
pub enum Width {
    U8,
    U16,
    U32,
    U64,
}

impl Width {
    /// The greatest number of this width.
    pub fn max(self) -> u64
        ensures { result ≡ 256 ^ bytes_of self - 1 }
    {
        match self {
            Width::U8 => u8::MAX as u64,
            Width::U16 => u16::MAX as u64,
            Width::U32 => u32::MAX as u64,
            Width::U64 => u64::MAX,
        }
    }
}

/// What the digits of a number are of.
#[derive(Clone, Copy, Debug, PartialEq, Eq)]
pub enum Base {
    Octal,
    Decimal,
    Hexadecimal,
}

impl Base {
    /// How many digits there are.
    pub fn radix(self) -> u32
        ensures { result ≡ radix_of self }
    {
        match self {
            Base::Octal => 8,
            Base::Decimal => 10,
            Base::Hexadecimal => 16,
        }
    }

    /// Its name.
    pub fn name(self) -> &'static str {
        match self {
            Base::Octal => "octal",
            Base::Decimal => "decimal",
            Base::Hexadecimal => "hexadecimal",
        }
    }
}

/// What a field of a message holds, and so how it is in words and in bytes.
#[derive(Clone, Copy, Debug, PartialEq, Eq)]
pub enum Form {
    /// A number, in decimal digits.
    Number(Width),
    /// The permissions and flags of a file: four bytes, in octal digits.
    Octal,
    /// A text.
    Text,
    /// A count of bytes, and the bytes.
    Data,
    /// A qid: `(PATH VERS TYPE)`.
    Qid,
    /// A number of names, and each name after its index and a colon.
    Names,
    /// A number of qids, and each qid after its index and a colon.
    Qids,
    /// A stat, as dirread(2) prints it.
    Stat,
}

/// What follows an index in a list.
#[derive(Clone, Copy, Debug, PartialEq, Eq)]
pub enum Item {
    Name,
    Qid,
}
