// What the exported calls with one value have in common: how their answer is told.
#![tactic(auto)]

ghost use Rattle.std.specs.Prelude.{◌≡◌};
ghost use Rattle.export_numbers.specs.Numbers.{value_numbers};

use iff_refusal::Refusal;

// An answer as numbers: the number of a refusal or 0, the place of a refusal or 0, and the value or 0.
pub fn tell(v: Result<usize, Refusal>, place: &mut usize, value: &mut usize) -> usize
    ensures { record { number = result; place = place.new; value = value.new } ≡ value_numbers v }
{
    match v {
        Ok(n) => {
            *place = 0;
            *value = n;
            0
        }
        Err(r) => {
            *place = r.place;
            *value = 0;
            r.reason.number()
        }
    }
}
