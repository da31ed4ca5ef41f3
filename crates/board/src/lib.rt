// The lists of a job's board: its pads from right to left, and their sides among the ports; in `bars` the ports that squares
// bar.
#![tactic(auto)]

pub mod bars;

ghost use Rattle.std.specs.Prelude.{◌≡◌, ◌≤◌, length};
ghost use Rattle.paper.specs.Job.{x_of, port_of};
ghost use Rattle.job.specs.Board.{board_on, pads_on, ports_on, AcceptedOn};
ghost use Rattle.order.specs.Falling.{OrderOf};
ghost use Rattle.board.specs.Lists.{Rises, Under, Upto, SidesOf, RoomFor};

use job::Job;

// How many ports are below the height h. Ports rise: the last one below it is found by halving.
// Stays: ports are bytes of the job, and std's partition_point halves a slice of what it tests.
fn under(job: &Job, h: i64) -> u16
    requires { (length job.now.ports.now ≤ 1024) × (ports_on job.now ≤ 128) × Rises (ports_on job.now) (port_of job.now.form job.now.ports.now) }
    ensures { Under (ports_on job.now) (port_of job.now.form job.now.ports.now) h result }
{
    let mut a: u16 = 0;
    let mut b = job.port_count();
    while a < b {
        let q = (a + b) / 2;
        if job.port(q) < h {
            a = q + 1;
        } else {
            b = q;
        }
    }
    a
}

// How many ports are at the height h or below, where c are below: the next one may be at h.
fn upto(job: &Job, c: u16, h: i64) -> u16
    requires ports_len_bound { (length job.now.ports.now ≤ 1024) × Rises (ports_on job.now) (port_of job.now.form job.now.ports.now) }
    requires under { Under (ports_on job.now) (port_of job.now.form job.now.ports.now) h c }
    ensures { Upto (ports_on job.now) (port_of job.now.form job.now.ports.now) h result }
{
    if c < job.port_count() && job.port(c) == h {
        c + 1
    } else {
        c
    }
}

// For each pad how many ports are below it, and how many at its height or below.
fn sides(job: &Job, lo: &mut [u8], hi: &mut [u8])
    requires { AcceptedOn job.now × (length lo.old ≡ pads_on job.now) × (length hi.old ≡ pads_on job.now) }
    ensures { SidesOf (board_on job.now) lo.new hi.new }
{
    for j in 0..job.count() {
        let y = job.y(j);
        let low = under(job, y);
        lo[usize::from(j)] = low as u8;
        hi[usize::from(j)] = upto(job, low, y) as u8;
    }
}

// The lists of a job's board.
// Stays: the lists are written here; who reads them has them as one type.
pub fn prepare(job: &Job, order: &mut [u8], lo: &mut [u8], hi: &mut [u8])
    requires { AcceptedOn job.now × RoomFor (pads_on job.now) order.old lo.old hi.old }
    ensures order_of { OrderOf (pads_on job.now) (x_of job.now.pads.now) order.new }
    ensures sides_of { SidesOf (board_on job.now) lo.new hi.new }
{
    order::by_falling_x(job, order);
    sides(job, lo, hi);
}
