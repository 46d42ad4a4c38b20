// The four-byte names of EA IFF 85: the reserved ones, and the tests on a name.
#![tactic(auto)]

ghost use Rattle.std.specs.Prelude.{◌≡◌};
ghost use Rattle.iff_name.specs.Name.{
  printable,
  space_then,
  well_formed,
  version_name,
  type_byte,
  type_bytes,
  reserved_name,
  type_name,
  kind_of,
  kind_number,
};

// A name as one number, its first byte the highest. Names are compared exactly, case included.
#[derive(Clone, Copy, Debug, PartialEq, Eq)]
pub struct Name {
    pub code: u32,
}

// What a chunk's name makes of the chunk.
#[derive(Clone, Copy, Debug, PartialEq, Eq)]
pub enum Kind {
    FORM,
    LIST,
    CAT,
    PROP,
    LOCAL,
    FILLER,
}

fn printable(b: u8) -> bool
    ensures { result ≡ printable b }
{
    (32 <= b) & (b <= 126)
}

fn space_then(b: u8, next: u8) -> bool
    ensures { result ≡ space_then b next }
{
    (b != 32) | (next == 32)
}

fn type_byte(b: u8) -> bool
    ensures { result ≡ type_byte b }
{
    ((65 <= b) & (b <= 90)) | (((48 <= b) & (b <= 57)) | (b == 32))
}

impl Name {
    pub const FORM: Name = Name { code: 0x464F524D };

    pub const LIST: Name = Name { code: 0x4C495354 };

    pub const CAT: Name = Name { code: 0x43415420 };

    pub const PROP: Name = Name { code: 0x50524F50 };

    pub const JJJJ: Name = Name { code: 0x4A4A4A4A };

    pub const FILLER: Name = Name { code: 0x20202020 };
    // The three bytes that a version name begins with.
    const FOR: Name = Name { code: 0x464F52 };

    const LIS: Name = Name { code: 0x4C4953 };

    const CATS: Name = Name { code: 0x434154 };

    // Printable bytes, and no space before another byte.
    pub fn is_well_formed(self) -> bool
        ensures { result ≡ well_formed self.code }
    {
        let [a, b, c, d] = self.code.to_be_bytes();
        ((printable(a) & printable(b)) & (printable(c) & printable(d)))
            & (space_then(a, b) & (space_then(b, c) & space_then(c, d)))
    }

    // FOR1 to FOR9, LIS1 to LIS9, CAT1 to CAT9.
    #[tactic(auto, unfolding(crate::specs::Name::version_name))]
    pub fn is_version(self) -> bool
        ensures { result ≡ version_name self.code }
    {
        let stem = self.code / 256;
        let digit = self.code % 256;
        ((stem == Name::FOR.code) | ((stem == Name::LIS.code) | (stem == Name::CATS.code)))
            & ((49 <= digit) & (digit <= 57))
    }

    // A to Z, 0 to 9 and spaces alone.
    fn has_type_bytes(self) -> bool
        ensures { result ≡ type_bytes self.code }
    {
        let [a, b, c, d] = self.code.to_be_bytes();
        (type_byte(a) & type_byte(b)) & (type_byte(c) & type_byte(d))
    }

    // A group's name, the filler or JJJJ.
    #[tactic(auto, unfolding(crate::specs::Name::reserved_name))]
    fn is_reserved(self) -> bool
        ensures { result ≡ reserved_name self.code }
    {
        matches!(
            self,
            Name::FORM | Name::LIST | Name::CAT | Name::PROP | Name::JJJJ | Name::FILLER
        )
    }

    // A name that may be the type of a FORM or PROP.
    #[tactic(auto, unfolding(crate::specs::Name::type_name))]
    pub fn is_type(self) -> bool
        ensures { result ≡ type_name self.code }
    {
        (self.is_well_formed() & self.has_type_bytes()) & (!self.is_reserved() & !self.is_version())
    }

    #[tactic(auto, unfolding(crate::specs::Name::kind_of))]
    pub fn kind(self) -> Kind
        ensures { result ≡ kind_of self.code }
    {
        match self {
            Name::FORM => Kind::FORM,
            Name::LIST => Kind::LIST,
            Name::CAT => Kind::CAT,
            Name::PROP => Kind::PROP,
            Name::FILLER => Kind::FILLER,
            _ => Kind::LOCAL,
        }
    }
}

// A kind as a number, in the order in which they are declared: FORM, LIST, CAT, PROP, LOCAL and FILLER from 1 on.
pub fn kind_number(k: Kind) -> usize
    ensures { result ≡ kind_number k }
{
    match k {
        Kind::FORM => 1,
        Kind::LIST => 2,
        Kind::CAT => 3,
        Kind::PROP => 4,
        Kind::LOCAL => 5,
        Kind::FILLER => 6,
    }
}
