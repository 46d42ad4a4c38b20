// The rules of what may stand where.
#![tactic(auto)]

ghost use Rattle.std.specs.Prelude.{◌≡◌};
ghost use Rattle.iff_name.specs.Name.{kind_of};
ghost use Rattle.iff_rules.specs.Rules.{
  is_group,
  is_section,
  allowed,
  misplaced,
  inside,
  after,
  group_type,
};

use iff_name::{Kind, Name};

// Where a chunk stands: by itself, in a FORM, in a PROP, in a LIST with no FORM, LIST or CAT before it,
// or in a CAT or the rest of a LIST.
#[derive(Clone, Copy, Debug, PartialEq, Eq)]
pub enum Position {
    Outermost,
    InForm,
    InProp,
    InList,
    InCat,
}

pub fn is_group(k: Kind) -> bool
    ensures { result ≡ is_group k }
{
    matches!(k, Kind::FORM | Kind::LIST | Kind::CAT | Kind::PROP)
}

pub fn is_section(k: Kind) -> bool
    ensures { result ≡ is_section k }
{
    matches!(k, Kind::FORM | Kind::LIST | Kind::CAT)
}

fn allowed(w: Position, k: Kind) -> bool
    ensures { result ≡ allowed w k }
{
    match w {
        Position::Outermost => is_section(k),
        Position::InForm => k != Kind::PROP,
        Position::InProp => matches!(k, Kind::LOCAL | Kind::FILLER),
        Position::InList => k != Kind::LOCAL,
        Position::InCat => (k != Kind::PROP) & (k != Kind::LOCAL),
    }
}

pub fn misplaced(w: Position, n: Name, k: Kind) -> bool
    requires { k ≡ kind_of n.code }
    ensures { result ≡ misplaced w n.code }
{
    (n == Name::JJJJ) | !allowed(w, k)
}

pub fn inside(k: Kind) -> Position
    ensures { result ≡ inside k }
{
    match k {
        Kind::LIST => Position::InList,
        Kind::CAT => Position::InCat,
        Kind::PROP => Position::InProp,
        Kind::FORM | Kind::LOCAL | Kind::FILLER => Position::InForm,
    }
}

pub fn after(w: Position, k: Kind) -> Position
    ensures { result ≡ after w k }
{
    match w {
        Position::InList => {
            if is_section(k) {
                Position::InCat
            } else {
                Position::InList
            }
        }
        _ => w,
    }
}

pub fn group_type(k: Kind, t: Name) -> bool
    ensures { result ≡ group_type k t.code }
{
    match k {
        Kind::FORM | Kind::PROP => t.is_type(),
        Kind::LIST | Kind::CAT => t.is_well_formed(),
        Kind::LOCAL | Kind::FILLER => false,
    }
}
