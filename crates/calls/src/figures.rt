// What each pad costs with each port, for a search to read.
ghost use Rattle.std.specs.Prelude.{◌≡◌};
ghost use Rattle.paper.specs.Job.{records};
ghost use Rattle.paper.specs.Given.{badness_of};
ghost use Rattle.paper.specs.Layouts.{board_of};
ghost use Rattle.paper.specs.laws.Accepted.{AcceptedJob, Fair};
ghost use Rattle.calls.specs.Figures.{FiguresOf};

use job::Job;
use paper::{Badness, Weights};

// Hands a search the figures of weights, in room of its own, which is not to be added to that of a table's search.
#[inline(never)]
fn by_weights<R, F: FnOnce(&[u32], &mut [u16], &mut [u64]) -> R>(
    job: &[u8],
    weights: Weights,
    list: &mut [u16],
    buffer: &mut [u64],
    search: F,
) -> R
    requires accepted { AcceptedJob (records job.now) × Fair (board_of (records job.now)) (badness_of (Badness.Weights weights)) }
    requires callable { (p : _) (l : _) (b : _) → FiguresOf job.now (badness_of (Badness.Weights weights)) p.now → l.now ≡ list.old → b.now ≡ buffer.old → F.pre search p l b }
    ensures { (p : _) × (l : _) × (b : _) × (after : _) × (left : _) × FiguresOf job.now (badness_of (Badness.Weights weights)) p.now × (l.now ≡ list.old) × (b.now ≡ buffer.old)
        × F.post search p l b result after left × (after.now ≡ list.new) × (left.now ≡ buffer.new) }
{
    let n = job.len() / 16;
    let square = n * n;
    // Stays: no call allocates, so there is room for the figures of 64 pads.
    let mut figures = [0u32; 4096];
    weights::fill(&Job::of_records(job), weights, &mut figures[..square]);
    search(&figures[..square], list, buffer)
}

// Searches by the figures of a table where they are lent, by those of weights in room of its own. The search is handed a list and a buffer; one that needs
// none is handed an empty one.
pub fn with_figures<R, F: FnOnce(&[u32], &mut [u16], &mut [u64]) -> R>(
    job: &[u8],
    bad: Badness,
    list: &mut [u16],
    buffer: &mut [u64],
    search: F,
) -> R
    requires accepted { AcceptedJob (records job.now) × Fair (board_of (records job.now)) (badness_of bad) }
    requires callable { (p : _) (l : _) (b : _) → FiguresOf job.now (badness_of bad) p.now → l.now ≡ list.old → b.now ≡ buffer.old → F.pre search p l b }
    ensures { (p : _) × (l : _) × (b : _) × (after : _) × (left : _) × FiguresOf job.now (badness_of bad.entry) p.now × (l.now ≡ list.old) × (b.now ≡ buffer.old)
        × F.post search p l b result after left × (after.now ≡ list.new) × (left.now ≡ buffer.new) }
{
    match bad {
        Badness::Table(figures) => search(figures, list, buffer),
        Badness::Weights(weights) => by_weights(job, weights, list, buffer, search),
    }
}
