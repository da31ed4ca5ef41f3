// How many best layouts a job that has passed the checks has, and the layout at a place of their order, by a table of what each pad costs with
// each port. The buffer that is lent has the ports that lead each strip, and the strips' counts: nothing that it held is read.
#![tactic(auto)]

ghost use Rattle.std.specs.Prelude.{◌≡◌, ◌≤◌, length};
ghost use Rattle.paper.specs.Job.{records, count};
ghost use Rattle.paper.specs.Layouts.{board_of, by_table};
ghost use Rattle.paper.specs.Problem.{labeling_of};
ghost use Rattle.paper.specs.laws.Accepted.{AcceptedJob, Fair};
ghost use Rattle.numbering.specs.Outcomes.{why_of, refused_for, LentOn, CountOn, PlaceOn};

use counting::NoPlace;
use job::Job;
use pads::Lists;
use paper::{Form, Reason, Refusal};
use totals::Figures;

// A least total from here on says that there is no layout.
// Stays: the totals are plain numbers in the table, and so is the least of them.
const NONE: u64 = 4611686018427387904;

const LIMIT: u64 = 1000000000000000000;

// Why nothing is told: no layout is untouching; the buffer is too short; there are more layouts than LIMIT; the place is past
// them.
#[derive(Clone, Copy, Debug, PartialEq, Eq)]
pub enum Why {
    NoLayout,
    Short,
    TooMany,
    Past,
}

impl From<NoPlace> for Why {
    ghost from_gives = { λ e w. w ≡ why_of e };

    fn from(e: NoPlace) -> Why {
        match e {
            NoPlace::TooMany => Why::TooMany,
            NoPlace::Past => Why::Past,
        }
    }
}

impl From<Why> for Refusal {
    ghost from_gives = { λ w r. r ≡ refused_for w };

    fn from(w: Why) -> Refusal {
        let reason = match w {
            Why::NoLayout => Reason::NoLayout,
            Why::Short => Reason::NoBufferRoom,
            Why::TooMany => Reason::TooMany,
            Why::Past => Reason::PastCount,
        };
        Refusal::of_whole(reason)
    }
}

// Room for the lists of a board.
#[derive(Drop)]
struct Room {
    order: [u8; 64],
    lo: [u8; 64],
    hi: [u8; 64],
}

// The lists of a board, and the least total of its layouts.
#[derive(Clone, Copy)]
struct Lent<'a> {
    lists: Lists<'a>,
    least: u64,
}

impl Room {
    const EMPTY: Room = Room {
        order: [0; 64],
        lo: [0; 64],
        hi: [0; 64],
    };

    // Lends the lists of a job's board, and the buffer has the ports that lead each strip. Where there is no layout, or the buffer
    // is too short, that is told, and the buffer is as it was: the bars, the table of least totals and these ports are worked out
    // in room of its own, which is given back before the counting goes deep.
    // Stays: the job is bytes, since it is one of records alone, which the type Job does not say.
    fn lend(&mut self, job: &[u8], figures: &[u32], buffer: &mut [u64]) -> Result<Lent, Why>
        requires { AcceptedJob (records job.now) × Fair (board_of (records job.now)) (by_table figures.now) }
        ensures { LentOn (board_of (records job.now)) figures.now buffer.old buffer.new result }
    {
        let job = Job {
            form: Form::Records,
            pads: job,
            ports: job,
        };
        let n = usize::from(job.count());
        let mut bars = [0u8; 4096];
        // Stays: no call allocates, so the room is that of 64 pads.
        let mut heads = [0u8; 2145];
        let mut totals = [0u64; 2145];
        let mut ports = [0u64; 2145];
        let Room { order, lo, hi } = self;
        let order = &mut order[..n];
        let lo = &mut lo[..n];
        let hi = &mut hi[..n];
        let bars = &mut bars[..n * n];
        board::prepare(&job, order, lo, hi);
        board::bars::bar(&job, bars);
        let lists = Lists {
            order,
            lo,
            hi,
            ports: n,
        };
        let figures = Figures {
            cost: figures,
            bars,
        };
        let least = table::fill(&mut heads, &mut totals, &mut ports, &lists, &figures);
        if NONE <= least {
            return Err(Why::NoLayout);
        }
        if faults::short_buffer(n, buffer.len()) {
            return Err(Why::Short);
        }
        let strips = totals::corner(n) + n + 1;
        buffer[..strips].copy_from_slice(&ports[..strips]);
        Ok(Lent { lists, least })
    }
}

// How many best layouts a job has.
pub fn count(job: &[u8], figures: &[u32], buffer: &mut [u64]) -> Result<u64, Why>
    requires { AcceptedJob (records job.now) × Fair (board_of (records job.now)) (by_table figures.now) }
    ensures { CountOn (labeling_of (records job.now) (by_table figures.now)) buffer.old buffer.new result }
{
    let mut room = Room::EMPTY;
    let lent = room.lend(job, figures, buffer)?;
    let c = counting::count(&lent.lists, buffer);
    if LIMIT < c {
        return Err(Why::TooMany);
    }
    Ok(c)
}

// The total of the best layout at place k, which the first n entries of `layout` then hold.
pub fn place(
    job: &[u8],
    figures: &[u32],
    k: u64,
    layout: &mut [u16],
    buffer: &mut [u64],
) -> Result<u64, Why>
    requires { AcceptedJob (records job.now) × Fair (board_of (records job.now)) (by_table figures.now) × (count job.now ≤ length layout.old) }
    ensures { PlaceOn (labeling_of (records job.now) (by_table figures.now)) k layout.old layout.new
        buffer.old buffer.new result }
{
    let mut room = Room::EMPTY;
    let lent = room.lend(job, figures, buffer)?;
    counting::place(&lent.lists, buffer, layout, k)?;
    Ok(lent.least)
}
