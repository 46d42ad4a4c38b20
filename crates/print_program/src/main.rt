// Lists the chunks of the file at standard input.
#![tactic(auto)]

ghost use Rattle.std.specs.Prelude.{◌≡◌, ◌≤◌, ◌<◌, length, take, IfOk, OnOk, IfSome};
ghost use Rattle.std.specs.Io.KnownBytes.{Appends, Consumes, IsAtEnd};
ghost use Rattle.iff_tree.specs.Judge.{check_of};
ghost use Rattle.list_spec.specs.Records.{count_of, record_of};
ghost use Rattle.list_cursor.specs.Cursors.{first_cursor, Located};
ghost use Rattle.print_line.specs.Text.{refusal_text};
ghost use Rattle.print_listing.specs.Lines.{answer_lines, listed_lines, lines_from, printed};
ghost use Rattle.print_program.specs.Output.{output_of};

use iff_refusal::{Reason, Refusal};
use iff_tree::Accepted;
use list_cursor::Cursor;
use std::io;
use std::io::{Read, Write};

// The longest file that is listed.
const MOST: usize = 65536;

// Writes the first n bytes of a text.
fn write_text<W: Write>(to: &mut W, out: &[u8], n: usize) -> io::Result<()>
    requires { n ≤ length out.now }
    ensures { OnOk result (Appends (W.contents to.old) (W.contents to.new) (take n out.now)) }
{
    to.write_all(&out[..n])
}

fn write_answer<W: Write>(to: &mut W, s: &[u8], v: Result<Accepted, Refusal>) -> io::Result<()>
    requires { v ≡ check_of s.now }
    ensures { OnOk result (Appends (W.contents to.old) (W.contents to.new) (answer_lines s.now)) }
{
    let mut out = [0u8; 200];
    let n = print_listing::answer_lines(&mut out, s, v);
    write_text(to, &out, n)
}

fn write_record<W: Write>(to: &mut W, s: &[u8], cur: Cursor) -> io::Result<()>
    requires { (Located s.now cur) × (cur.number < count_of s.now) }
    ensures { OnOk result (Appends (W.contents to.old) (W.contents to.new) (listed_lines (record_of s.now cur.number))) }
{
    let mut out = [0u8; 200];
    let n = print_listing::record_lines(&mut out, s, cur);
    write_text(to, &out, n)
}

// Writes the records of an accepted file, in one walk.
fn write_records<W: Write>(to: &mut W, s: &[u8], chunks: usize) -> io::Result<()>
    requires { (Located s.now first_cursor) × (chunks ≡ count_of s.now) }
    ensures { OnOk result (Appends (W.contents to.old) (W.contents to.new) (lines_from s.now 0 chunks)) }
{
    let mut cur = list_cursor::first();
    while cur.number < chunks {
        write_record(to, s, cur)?;
        cur = list_cursor::advance(s, cur);
    }
    Ok(())
}

// Writes the listing of a file, or its refusal.
fn list<W: Write>(to: &mut W, s: &[u8]) -> io::Result<()>
    ensures { OnOk result (Appends (W.contents to.old) (W.contents to.new) (printed s.now)) }
{
    let v = iff_tree::check(s);
    write_answer(to, s, v)?;
    match v {
        Ok(accepted) => write_records(to, s, accepted.chunks),
        Err(_) => Ok(()),
    }
}

// Writes the refusal of a file that is longer than the longest.
fn write_too_long<W: Write>(to: &mut W) -> io::Result<()>
    ensures { OnOk result (Appends (W.contents to.old) (W.contents to.new) (refusal_text 40 0)) }
{
    let mut out = [0u8; 200];
    let n = print_lines::put_refusal(&mut out, Reason::InputTooLong.number(), 0);
    write_text(to, &out, n)
}

// Reads until the buffer is full or the input ends, and gives how many bytes were read.
fn read_full<R: Read>(from: &mut R, buffer: &mut [u8]) -> io::Result<usize>
    ensures upper_bound { IfOk result (λ n. n ≤ length buffer.new) }
    ensures bytes { IfOk result (λ n. Consumes (R.remaining from.old) (R.remaining from.new) (take n buffer.new)) }
    ensures end { IfOk result (λ n. n < length buffer.new → IsAtEnd (R.remaining from.new)) }
{
    let mut done = 0;
    while done < buffer.len() {
        let n = from.read(&mut buffer[done..])?;
        if n == 0 {
            break;
        }
        done += n;
    }
    Ok(done)
}

// Reads a file to its end, or until it is too long, and writes its listing or its refusal.
fn run<R: Read, W: Write>(from: &mut R, to: &mut W) -> io::Result<()>
    ensures { OnOk result (IfSome (R.remaining from.old) (λ s. Appends (W.contents to.old) (W.contents to.new) (output_of s))) }
{
    let mut buffer = [0u8; 65537];
    let n = read_full(from, &mut buffer)?;
    if MOST < n {
        return write_too_long(to);
    }
    list(to, &buffer[..n])
}

fn main(rt: HostRuntime) -> io::Result<()> {
    run(&mut rt.stdin(), &mut rt.stdout())
}
