// The names that matter in a picture, and which groups are a picture or are shared by one.
#![tactic(auto)]

ghost use Rattle.std.specs.Prelude.{◌≡◌};
ghost use Rattle.ilbm_spec.specs.Names.{is_picture, is_shared_prop};

use iff_name::Name;

pub const ILBM: Name = Name { code: 0x494C424D };

pub const BMHD: Name = Name { code: 0x424D4844 };

pub const CMAP: Name = Name { code: 0x434D4150 };

pub const GRAB: Name = Name { code: 0x47524142 };

pub const DEST: Name = Name { code: 0x44455354 };

pub const SPRT: Name = Name { code: 0x53505254 };

pub const CAMG: Name = Name { code: 0x43414D47 };

pub const BODY: Name = Name { code: 0x424F4459 };

// Whether a group of this name and type is a picture.
pub fn is_picture(n: Name, t: Name) -> bool
    ensures { result ≡ is_picture n.code t.code }
{
    (n == Name::FORM) & (t == ILBM)
}

// Whether a group of this name and type is a PROP that pictures share.
pub fn is_shared_prop(n: Name, t: Name) -> bool
    ensures { result ≡ is_shared_prop n.code t.code }
{
    (n == Name::PROP) & (t == ILBM)
}
