// The lines of a file, put into a buffer: those of its answer, and those of the record at a cursor.
#![tactic(auto)]

ghost use Rattle.std.specs.Prelude.{◌≡◌, ◌≤◌, ◌<◌, length, take};
ghost use Rattle.iff_tree.specs.Judge.{check_of};
ghost use Rattle.list_spec.specs.Records.{record_of, count_of};
ghost use Rattle.list_cursor.specs.Cursors.{Located};
ghost use Rattle.print_listing.specs.Lines.{pictures_of, answer_lines, listed_lines};

use iff_refusal::Refusal;
use iff_tree::Accepted;
use list_cursor::Cursor;

// How many pictures a file has, 0 if it is refused.
fn pictures(s: &[u8]) -> usize
    ensures { result ≡ pictures_of s.now }
{
    ilbm_count::count_pictures(s).unwrap_or(0)
}

// Puts the lines that stand first: the refusal of a file, or what the check tells of it.
pub fn answer_lines(out: &mut [u8], s: &[u8], v: Result<Accepted, Refusal>) -> usize
    requires { (200 ≤ length out.old) × (v ≡ check_of s.now) }
    ensures out_after { take result out.new ≡ answer_lines s.now }
    ensures upper_bound { result ≤ 200 }
{
    match v {
        Ok(a) => print_lines::put_head(out, a.chunks, a.end, a.trailing, pictures(s)),
        Err(r) => print_lines::put_refusal(out, r.reason.number(), r.place),
    }
}

// Puts the six lines of the record at the cursor.
pub fn record_lines(out: &mut [u8], s: &[u8], cur: Cursor) -> usize
    requires { (200 ≤ length out.old) × (Located s.now cur) × (cur.number < count_of s.now) }
    ensures out_after { take result out.new ≡ listed_lines (record_of s.now cur.number) }
    ensures upper_bound { result ≤ 200 }
{
    let r = list_cursor::record_at(s, cur);
    let kind = r.kind;
    let name = r.name;
    print_lines::put_record(out, r.number, r.level, kind, name, r.place, r.size)
}
