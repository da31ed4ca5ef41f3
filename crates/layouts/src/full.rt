// A walk by a table of what each pad costs with each port, for as many ports as pads.
ghost use Rattle.std.specs.Prelude.{◌≡◌, ◌*◌, length};
ghost use Rattle.job.specs.Board.{board_on, pads_on, ports_on, AcceptedOn};
ghost use Rattle.paper.specs.Layouts.{by_table, cost_of};
ghost use Rattle.paper.specs.Problem.{labeling};
ghost use Rattle.paper.specs.laws.Accepted.{Fair};
ghost use Rattle.board.specs.Lists.{RoomFor};
ghost use Rattle.board.specs.Bars.{Clear};
ghost use Rattle.walks.specs.Walks.{Walks};
ghost use Rattle.layouts.specs.Replies.{rules_of, StartOn};

use choices::Tables;
use choices::given::Search;
use job::Job;
use pads::Lists;
use totals::{Figures, Table};
use walks::{Start, Walked};

// A walk, with lists lent for those of the board; that of the bars has zeros.
// Stays: the lists are made here; who reads them has them as one type.
fn walk_at<'a>(
    start: Start,
    job: &Job,
    cost: &'a [u32],
    order: &'a mut [u8],
    lo: &'a mut [u8],
    hi: &'a mut [u8],
    bars: &'a mut [u8],
    w: &mut [u16],
    page: &mut [u16],
) -> Option<Walked>
    requires accepted { AcceptedOn job.now × Fair (board_on job.now) (by_table cost.now) × (ports_on job.now ≡ pads_on job.now) × StartOn start (board_on job.now) w.old }
    requires room_for { RoomFor (pads_on job.now) order.old lo.old hi.old }
    requires bars_len { (length bars.old ≡ pads_on job.now * ports_on job.now) × Clear bars.old }
    ensures { Walks (rules_of (labeling (board_on job.now) (cost_of (board_on job.now) (by_table cost.now)))) (pads_on job.now) start w.old
        page.old w.new page.new result }
{
    board::prepare(job, order, lo, hi);
    board::bars::bar(job, bars);
    let ports = order.len();
    let lists = Lists {
        order,
        lo,
        hi,
        ports,
    };
    let figures = Figures { cost, bars };
    let mut heads = [0u8; 2145];
    let mut totals = [0u64; 2145];
    // First, Next and Page need no sets of ports, so the list that is lent for them has no length.
    let mut none = [0u64; 1];
    let least = table::fill(&mut heads, &mut totals, &mut none[..0], &lists, &figures);
    let table = Table {
        heads: &heads,
        totals: &totals,
    };
    let search = Search {
        lists,
        tables: Tables::Full { table, figures },
    };
    walks::walk(start, &search, w, page, least)
}

// A walk through the best layouts of a job. Its room is not to be added to that of the other form.
#[inline(never)]
pub fn walk(
    start: Start,
    job: &Job,
    cost: &[u32],
    w: &mut [u16],
    page: &mut [u16],
) -> Option<Walked>
    requires { AcceptedOn job.now × Fair (board_on job.now) (by_table cost.now) × (ports_on job.now ≡ pads_on job.now) × StartOn start (board_on job.now) w.old }
    ensures { Walks (rules_of (labeling (board_on job.now) (cost_of (board_on job.now) (by_table cost.now)))) (pads_on job.now) start w.old
        page.old w.new page.new result }
{
    let n = usize::from(job.count());
    // Stays: no call allocates, so the room is that of 64 pads, whatever the job has.
    let mut order = [0u8; 64];
    let mut lo = [0u8; 64];
    let mut hi = [0u8; 64];
    let mut bars = [0u8; 4096];
    walk_at(
        start,
        job,
        cost,
        &mut order[..n],
        &mut lo[..n],
        &mut hi[..n],
        &mut bars[..n * n],
        w,
        page,
    )
}
