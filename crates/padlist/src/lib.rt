// A list of pads, read from text: one pass, in which each line leaves the text that follows it. Rows are made in the caller's bytes, 16 for each of the first 64.
#![tactic(auto)]

ghost use Rattle.std.specs.Prelude.{◌≡◌, ◌+◌, ◌≤◌, length, IfSome};
ghost use Rattle.text.specs.Text.{Writes};
ghost use Rattle.paper.specs.Job.{bytes4};
ghost use Rattle.paper.specs.laws.Parsing.{line_front, row_bytes};
ghost use Rattle.paper.specs.laws.Parsing.{fitting as fitting-of};
ghost use Rattle.fields.specs.Fronts.{content_of};
ghost use Rattle.padlist.specs.Lines.{row_of, row_front, ListedIs};

use fields::Kind;

#[derive(Clone, Copy)]
struct Row {
    name: u32,
    x: u32,
    y: u32,
}

// The first bad line, counted from 1.
#[derive(Clone, Copy, Debug, PartialEq, Eq)]
pub struct BadLine {
    pub line: u16,
}

// A line of three fields, and what follows it.
#[tactic(auto, unfolding(paper::specs::laws::Parsing::line_front))]
fn line(text: &[u8], a: Kind, b: Kind, c: Kind) -> Option<(Row, &[u8])>
    ensures front { line_front (content_of a) (content_of b) (content_of c) text.now ≡ row_front result }
    ensures shorter { IfSome result (λ read. length read.1.now + 1 ≤ length text.now) }
{
    let (name, rest) = fields::field(a, text)?;
    let rest = fields::byte(rest, b',')?;
    let (x, rest) = fields::field(b, rest)?;
    let rest = fields::byte(rest, b',')?;
    let (y, rest) = fields::field(c, rest)?;
    let rest = fields::end(rest)?;
    Some((Row { name, x, y }, rest))
}

// 4 bytes, lowest first.
// Stays: bytes and a place are apart, as in `text`.
fn four(n: u32, out: &mut [u8], at: usize) -> usize
    requires { at + 4 ≤ length out.old }
    ensures { Writes out.old at (bytes4 n) result out.new }
{
    text::word(&n.to_le_bytes(), out, at)
}

// A name of 2 bytes: one that does not fit is 0, and so is refused like it.
#[tactic(auto, unfolding(paper::specs::laws::Parsing::fitting))]
fn fitting(name: u32) -> u16
    ensures { result ≡ fitting-of name }
{
    u16::try_from(name).unwrap_or(0)
}

// A row as a record of 16 bytes.
fn put(row: Row, out: &mut [u8], at: usize) -> usize
    requires { at + 16 ≤ length out.old }
    ensures { Writes out.old at (row_bytes (row_of row)) result out.new }
{
    let x = four(u32::from(fitting(row.name)), out, at);
    let y = four(row.x, out, x);
    let last = four(row.y, out, y);
    four(0, out, last)
}

// All lines: how many there are after the first. The first ones are put into `made`, a record each, while there is room for one.
#[tactic(auto, using(crate::specs::Laws::head_bad, crate::specs::Laws::reading_none))]
pub fn lines(text: &[u8], made: &mut [u8; 1024]) -> Result<u16, BadLine>
    requires { length text.now ≤ 16384 }
    ensures { ListedIs text.now result made.new }
{
    let head = line(text, Kind::Name, Kind::X, Kind::Y);
    let (_, mut rest) = head.ok_or(BadLine { line: 1 })?;
    let mut n: u16 = 0;
    // Stays: where a line ends is known when it is read, so a `for` has nothing to go over.
    while !rest.is_empty() {
        let read = line(rest, Kind::Natural, Kind::Natural, Kind::Signed);
        let (row, next) = read.ok_or(BadLine { line: n + 2 })?;
        if n < 64 {
            put(row, made, 16 * usize::from(n));
        }
        rest = next;
        n += 1;
    }
    Ok(n)
}
