// The table of weighted lengths and bends: what the calls by weights hand to the search.
#![tactic(auto)]

ghost use Rattle.std.specs.Prelude.{◌+◌, ◌*◌, ◌≤◌, ◌<◌, ◌≡◌, length};
ghost use Rattle.paper.specs.Layouts.{weighted, TableOf};
ghost use Rattle.job.specs.Board.{board_on, pads_on, ports_on, AcceptedOn};
ghost use Rattle.measure.specs.Given.{InRange};
ghost use Rattle.weights.specs.Rows.{FilledTo, lent_figure, FiguresFrom};

use job::Job;
use paper::Weights;

// The figures of pad j with each port.
// Stays: a row is found by its place, since four figures at a time come of a port number of 16 bits.
fn fill_row(job: &Job, w: Weights, figures: &mut [u32], j: u16)
    requires accepted { AcceptedOn job.now × InRange w × (j < pads_on job.now) }
    requires filled_to { FilledTo (board_on job.now) (weighted (board_on job.now) w.length w.bend) figures.old (j * ports_on job.now) }
    ensures { FilledTo (board_on job.now) (weighted (board_on job.now) w.length w.bend) figures.new ((j + 1) * ports_on job.now) }
{
    let p = job.port_count();
    let row = usize::from(j) * usize::from(p);
    for q in 0..p {
        figures[row + usize::from(q)] = measure::weighted(job, w, j, q);
    }
}

// The figures of each pad with each port.
pub fn fill(job: &Job, w: Weights, figures: &mut [u32])
    requires { AcceptedOn job.now × InRange w × (length figures.old ≡ pads_on job.now * ports_on job.now) }
    ensures { TableOf (board_on job.now) (weighted (board_on job.now) w.length w.bend) figures.new }
{
    for j in 0..job.count() {
        fill_row(job, w, figures, j);
    }
}

// A figure as a work list has it: 2 ^ 32 where the port is barred, which is none.
// Stays: a work list is lent as numbers, so that none is one of them too.
fn lent(bar: u8, figure: u32) -> u64
    ensures { result ≡ lent_figure bar figure }
{
    if bar == 0 {
        u64::from(figure)
    } else {
        4294967296
    }
}

// The same figures in a lent work list, from place `base` on, but for the pads with ports that are barred for them.
pub fn fill_work(job: &Job, w: Weights, bars: &[u8], work: &mut [u64], base: usize)
    requires accepted { AcceptedOn job.now × InRange w × (base + pads_on job.now * ports_on job.now ≤ length work.old) }
    requires bars_len { length bars.now ≡ pads_on job.now * ports_on job.now }
    ensures { (length work.new ≡ length work.old) × FiguresFrom (board_on job.now) (weighted (board_on job.now) w.length w.bend) bars.now base work.new }
{
    let n = job.count();
    let p = job.port_count();
    for k in 0..n * p {
        let figure = measure::weighted(job, w, k / p, k % p);
        work[base + usize::from(k)] = lent(bars[usize::from(k)], figure);
    }
}
