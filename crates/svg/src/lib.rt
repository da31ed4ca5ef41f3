// A sheet as SVG: one line of text for each leader, made in room of its own and then copied to the lent bytes if it fits.
// A line has at most 76 bytes with its newline, so 4,864 are enough for 64. The numbers are whole ones, quarters of a canvas unit: no float is formatted.
#![tactic(auto)]

ghost use Rattle.std.specs.Prelude.{◌++◌, ◌+◌, ◌≤◌, length, nat_abs};
ghost use Rattle.text.specs.Text.{bytes, Writes};
ghost use Rattle.paper.specs.Job.{records};
ghost use Rattle.paper.specs.Layouts.{by_weights, board_of, held};
ghost use Rattle.paper.specs.Refusals.{Passed, measure_trials};
ghost use Rattle.paper.specs.Promises.{SvgAnswers};
ghost use Rattle.paper.specs.Svg.{quarters as quarters-of, numeral as numeral-of};
ghost use Rattle.paper.specs.laws.Drawn.{OnSheet};
ghost use Rattle.paper.specs.laws.Texts.{point_text, line_text, sheet_text};

use job::Job;
use paper::{Counted, Form, Reason, Refusal};

// So many quarters in decimal.
// Stays: bytes and a place are apart, as in `text`.
fn quarters(n: u64, out: &mut [u8], at: usize) -> usize
    requires { at + length (quarters-of n) ≤ length out.old }
    ensures { Writes out.old at (quarters-of n) result out.new }
{
    let point = text::decimal(n / 4, out, at);
    match n % 4 {
        0 => point,
        1 => text::word(b".25", out, point),
        2 => text::word(b".5", out, point),
        _ => text::word(b".75", out, point),
    }
}

// The same with a sign: a minus stands before what is below 0.
fn numeral(v: i64, out: &mut [u8], at: usize) -> usize
    requires { (nat_abs v ≤ 1000000) × (at + length (numeral-of v) ≤ length out.old) }
    ensures { Writes out.old at (numeral-of v) result out.new }
{
    let digits = if v < 0 { text::word(b"-", out, at) } else { at };
    quarters(v.unsigned_abs(), out, digits)
}

// The point (x, y) of the sheet on the canvas, where y grows downward.
fn point(x: u32, y: i64, out: &mut [u8], at: usize) -> usize
    requires { (nat_abs y ≤ 1000000) × (at + length (point_text x y) ≤ length out.old) }
    ensures { Writes out.old at (point_text x y) result out.new }
{
    let comma = quarters(u64::from(x), out, at);
    let down = text::word(b",", out, comma);
    numeral(-y, out, down)
}

// A blank and a further point.
fn further(x: u32, y: i64, out: &mut [u8], at: usize) -> usize
    requires { (nat_abs y ≤ 1000000) × (at + 1 + length (point_text x y) ≤ length out.old) }
    ensures { Writes out.old at (bytes " " ++ point_text x y) result out.new }
{
    let blank = text::word(b" ", out, at);
    point(x, y, out, blank)
}

// The line of the leader of a pad (x, y) to a port of height q, with its newline.
fn line(x: u32, y: i64, q: i64, out: &mut [u8], at: usize) -> usize
    requires { OnSheet (record { x = x; y = y; port = q }) × (at + length (line_text (record { x = x; y = y; port = q })) + 1 ≤ length out.old) }
    ensures { Writes out.old at (line_text (record { x = x; y = y; port = q }) ++ bytes "\n") result out.new }
{
    let start = text::word(b"<polyline points=\"", out, at);
    let pad = point(x, y, out, start);
    let bend = if y == q { pad } else { further(x, q, out, pad) };
    let port = further(0, q, out, bend);
    text::word(b"\"/>\n", out, port)
}

// The lines of all records, in file order.
fn lines(job: &[u8], list: &[u16], out: &mut [u8]) -> usize
    requires { Passed (measure_trials (records job.now) (by_weights 0 0) None list.now) × (4864 ≤ length out.old) }
    ensures { Writes out.old 0 (sheet_text (board_of (records job.now)) (held list.now)) result out.new × (result ≤ 4864) }
{
    let job = Job {
        form: Form::Records,
        pads: job,
        ports: job,
    };
    let mut at = 0;
    for i in 0..job.count() {
        let q = job.port(list[usize::from(i)]);
        at = line(job.x(i), job.y(i), q, out, at);
    }
    at
}

// Svg, of a layout that passed Measure's checks: its text in the first bytes of `out`, or 19 where it does not fit.
pub fn sheet(job: &[u8], list: &[u16], out: &mut [u8]) -> Counted
    requires { Passed (measure_trials (records job.now) (by_weights 0 0) None list.now) }
    ensures { SvgAnswers job.now list.now out.old result out.new }
{
    // Stays: no call allocates, so there is room for 64 lines, whatever the job has.
    let mut made = [0u8; 4864];
    let end = lines(job, list, &mut made);
    if out.len() < end {
        return Err(Refusal::of_whole(Reason::TextTooLong));
    }
    Ok(text::word(&made[..end], out, 0) as u64)
}
