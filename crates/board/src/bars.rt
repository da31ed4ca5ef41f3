// The bars of a board: for each pad the ports to which its leader would meet the square of another pad. A square bars one run of
// ports for a pad: those at its own heights; where the hand is beside it also those on its far side, all if the pad is at its heights.
ghost use Rattle.std.specs.Prelude.{◌≡◌, cond, ◌&&◌, ◌+◌, ◌*◌, ◌≤◌, ◌<◌, length};
ghost use Rattle.std.specs.Int.Signed.{le_z};
ghost use Rattle.paper.specs.Job.{half_of};
ghost use Rattle.job.specs.Board.{board_on, pads_on, ports_on, AcceptedOn};
ghost use Rattle.slots.specs.Slots.{Shut};
ghost use Rattle.board.specs.Bars.{BarsOf, BarsTo, Clear, SquareOf};

use job::Job;

// A square in numbers: its x and half-side, the heights of its bottom and its top, how many ports are below the bottom, and how many
// at the top or below.
#[derive(Clone, Copy)]
struct Square {
    x: u32,
    half: u16,
    bottom: i64,
    top: i64,
    from: u16,
    to: u16,
}

// 1 from one place up to another.
fn mark(bars: &mut [u8], from: usize, to: usize)
    requires { (from ≤ to) × (to ≤ length bars.old) }
    ensures { Shut from to bars.old bars.new }
{
    bars[from..to].fill(1);
}

// The square of pad j, whose half-side has been read.
fn square_of(job: &Job, j: u16, half: u16) -> Square
    requires { AcceptedOn job.now × (j < pads_on job.now) × (half ≡ half_of job.now.pads.now j) × (0 < half) }
    ensures { SquareOf (board_on job.now) j result }
{
    let y = job.y(j);
    let bottom = y - i64::from(half);
    let top = y + i64::from(half);
    let from = crate::under(job, bottom);
    let to = crate::upto(job, crate::under(job, top), top);
    Square {
        x: job.x(j),
        half,
        bottom,
        top,
        from,
        to,
    }
}

// The first port that a square bars for a pad of the height y, and the first one after those, of p ports.
fn first_barred(s: Square, beside: bool, y: i64) -> u16
    ensures { result ≡ cond (beside && le_z s.bottom y) 0 s.from }
{
    if beside & (s.bottom <= y) { 0 } else { s.from }
}

// Stays: `first_barred` compares the other way round, and answers another end of the run.
fn after_barred(s: Square, beside: bool, y: i64, p: u16) -> u16
    ensures { result ≡ cond (beside && le_z y s.top) p s.to }
{
    if beside & (y <= s.top) { p } else { s.to }
}

// What the square s of pad j bars for pad i.
fn bar_pad(job: &Job, bars: &mut [u8], i: u16, j: u16, s: Square)
    requires accepted { AcceptedOn job.now × (i < pads_on job.now) }
    requires square_of { SquareOf (board_on job.now) j s }
    requires bars_to { BarsTo (board_on job.now) j i bars.old }
    ensures { BarsTo (board_on job.now) j (i + 1) bars.new }
{
    if i == j {
        return;
    }
    let x = job.x(i);
    if x + u32::from(s.half) < s.x {
        return;
    }
    let y = job.y(i);
    let p = job.port_count();
    let beside = x <= s.x + u32::from(s.half);
    let row = usize::from(i) * usize::from(p);
    mark(
        bars,
        row + usize::from(first_barred(s, beside, y)),
        row + usize::from(after_barred(s, beside, y, p)),
    );
}

// What the square of pad j bars for each pad. One of half-side 0 is a point of its pad's leader, and bars nothing by itself.
fn bar_square(job: &Job, bars: &mut [u8], j: u16)
    requires accepted { AcceptedOn job.now × (j < pads_on job.now) }
    requires bars_to { BarsTo (board_on job.now) j 0 bars.old }
    ensures { BarsTo (board_on job.now) (j + 1) 0 bars.new }
{
    let half = job.half_side(j);
    if half == 0 {
        return;
    }
    let s = square_of(job, j, half);
    for i in 0..job.count() {
        bar_pad(job, bars, i, j, s);
    }
}

// The bars of a job's board, in a list of zeros.
pub fn bar(job: &Job, bars: &mut [u8])
    requires accepted { AcceptedOn job.now }
    requires bars_len { (length bars.old ≡ pads_on job.now * ports_on job.now) × Clear bars.old }
    ensures { BarsOf (board_on job.now) bars.new }
{
    for j in 0..job.count() {
        bar_square(job, bars, j);
    }
}
