// Where a property comes from and where its data lies, as the numbers that are told of it.
#![tactic(auto)]

ghost use Rattle.std.specs.Prelude.{◌≡◌};
ghost use Rattle.ilbm_spec.specs.Table.{origin_number, shared_place};
ghost use Rattle.ilbm_numbers.specs.Parts.{from_of, to_of};

use ilbm_spec::Origin;

pub fn origin_number(o: Origin) -> usize
    ensures { result ≡ origin_number o }
{
    match o {
        Origin::Own => 1,
        Origin::Shared(_) => 2,
        Origin::Absent => 0,
    }
}

pub fn shared_place(o: Origin) -> usize
    ensures { result ≡ shared_place o }
{
    match o {
        Origin::Own => 0,
        Origin::Shared(p) => p,
        Origin::Absent => 0,
    }
}

pub fn part_from(part: Option<(usize, usize)>) -> usize
    ensures { result ≡ from_of part }
{
    match part {
        None => 0,
        Some((from, _)) => from,
    }
}

pub fn part_to(part: Option<(usize, usize)>) -> usize
    ensures { result ≡ to_of part }
{
    match part {
        None => 0,
        Some((_, to)) => to,
    }
}
