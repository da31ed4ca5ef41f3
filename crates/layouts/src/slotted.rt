// A walk by weights, where ports may stay free: the figures and the table of least totals stand in the work list that is lent.
ghost use Rattle.std.specs.Prelude.{◌≡◌, ◌*◌, ◌≤◌, length};
ghost use Rattle.job.specs.Board.{board_on, pads_on, ports_on, AcceptedOn};
ghost use Rattle.measure.specs.Given.{InRange};
ghost use Rattle.paper.specs.Layouts.{by_weights, cost_of, weighted};
ghost use Rattle.paper.specs.Problem.{labeling};
ghost use Rattle.paper.specs.Refusals.{work_needed};
ghost use Rattle.board.specs.Lists.{RoomFor, ListsOf};
ghost use Rattle.board.specs.Bars.{Clear};
ghost use Rattle.walks.specs.Walks.{Walks};
ghost use Rattle.layouts.specs.Replies.{rules_of, StartOn, Tabled};

use choices::Tables;
use choices::given::Search;
use job::Job;
use pads::Lists;
use paper::Weights;
use walks::{Start, Walked};

// The figures and the table of least totals, with the least of all. The list lent for the bars has zeros.
fn fill(job: &Job, weights: Weights, lists: &Lists, bars: &mut [u8], work: &mut [u64]) -> u64
    requires workable { AcceptedOn job.now × InRange weights × (work_needed (pads_on job.now) (ports_on job.now) ≤ length work.old) }
    requires lists { ListsOf (board_on job.now) lists.now.order.now lists.now.lo.now lists.now.hi.now × (lists.now.ports ≡ ports_on job.now) }
    requires bars_len { (length bars.old ≡ pads_on job.now * ports_on job.now) × Clear bars.old }
    ensures { Tabled (board_on job.now) (weighted (board_on job.now) weights.length weights.bend)
        lists.now.order.now lists.now.lo.now lists.now.hi.now work.new result }
{
    board::bars::bar(job, bars);
    let base = slots::figures_at(lists.order.len(), lists.ports);
    weights::fill_work(job, weights, bars, work, base);
    slots::fill(work, lists)
}

// A walk, with lists lent for those of the board.
// Stays: the lists are made here; who reads them has them as one type.
fn walk_at<'a>(
    start: Start,
    job: &Job,
    weights: Weights,
    order: &'a mut [u8],
    lo: &'a mut [u8],
    hi: &'a mut [u8],
    bars: &mut [u8],
    w: &mut [u16],
    page: &mut [u16],
    work: &'a mut [u64],
) -> Option<Walked>
    requires workable { AcceptedOn job.now × InRange weights × (work_needed (pads_on job.now) (ports_on job.now) ≤ length work.old) }
    requires room_for { RoomFor (pads_on job.now) order.old lo.old hi.old × StartOn start (board_on job.now) w.old }
    requires bars_len { (length bars.old ≡ pads_on job.now * ports_on job.now) × Clear bars.old }
    ensures { Walks (rules_of (labeling (board_on job.now) (cost_of (board_on job.now) (by_weights weights.length weights.bend)))) (pads_on job.now) start w.old
        page.old w.new page.new result }
{
    board::prepare(job, order, lo, hi);
    let ports = usize::from(job.port_count());
    let lists = Lists {
        order,
        lo,
        hi,
        ports,
    };
    let least = fill(job, weights, &lists, bars, work);
    let search = Search {
        lists,
        tables: Tables::Slotted { work },
    };
    walks::walk(start, &search, w, page, least)
}

// A walk through the best layouts of a job. Its room is not to be added to that of the other form.
#[inline(never)]
pub fn walk(
    start: Start,
    job: &Job,
    weights: Weights,
    w: &mut [u16],
    page: &mut [u16],
    work: &mut [u64],
) -> Option<Walked>
    requires workable { AcceptedOn job.now × InRange weights × (work_needed (pads_on job.now) (ports_on job.now) ≤ length work.old) }
    requires start_on { StartOn start (board_on job.now) w.old }
    ensures { Walks (rules_of (labeling (board_on job.now) (cost_of (board_on job.now) (by_weights weights.length weights.bend)))) (pads_on job.now) start w.old
        page.old w.new page.new result }
{
    let n = usize::from(job.count());
    let p = usize::from(job.port_count());
    // Stays: no call allocates, so the room is that of 64 pads and 128 ports, whatever the job has.
    let mut order = [0u8; 64];
    let mut lo = [0u8; 64];
    let mut hi = [0u8; 64];
    let mut bars = [0u8; 8192];
    walk_at(
        start,
        job,
        weights,
        &mut order[..n],
        &mut lo[..n],
        &mut hi[..n],
        &mut bars[..n * p],
        w,
        page,
        work,
    )
}
