// The picture of a given number: judged, and its content told as parts of the file.
#![tactic(auto)]

ghost use Rattle.iff_walk.specs.Coming.{Sound};
ghost use Rattle.ilbm_spec.specs.Pictures.{view_of};
ghost use Rattle.ilbm_find.specs.Seen.{ViewIs, FormIn, FormView};

use iff_chunk::size_at;
use iff_refusal::{Reason, Refusal};
use iff_tree::check;
use ilbm_content::{Contents, content_at};
use ilbm_locate::{Scope, none_shared, seek};
use ilbm_refusals::judge;
use ilbm_spec::BitmapHeader;
use std::ops::ControlFlow;

// The picture in the FORM at a place.
pub fn view_form(s: &[u8], form: usize, scope: &Scope) -> Result<(Contents, BitmapHeader), Refusal>
    requires { FormIn s.now form scope.now }
    ensures { FormView s.now form scope.now result }
{
    let end = form + 8 + size_at(s, form + 4);
    let c = content_at(s, form, end, scope);
    let header = judge(s, c)?;
    Ok((c, header))
}

// The picture of number i in a sound file that ends at a place.
fn view_sound(s: &[u8], end: usize, i: usize) -> Result<(Contents, BitmapHeader), Refusal>
    requires { Sound s.now end }
    ensures { ViewIs s.now result (view_of s.now i) }
{
    match seek(s, 0, end, &none_shared(), i) {
        ControlFlow::Break((form, scope)) => view_form(s, form, &scope),
        ControlFlow::Continue(_) => Err(Reason::NoPicture.at(0)),
    }
}

// The picture of number i in any bytes.
pub fn view_picture(s: &[u8], i: usize) -> Result<(Contents, BitmapHeader), Refusal>
    ensures { ViewIs s.now result (view_of s.now i) }
{
    let accepted = check(s)?;
    view_sound(s, accepted.end, i)
}
