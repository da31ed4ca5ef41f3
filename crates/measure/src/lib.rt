// What a leader measures, and the total of a layout.
#![tactic(auto)]

ghost use Rattle.std.specs.Prelude.{◌≡◌, ◌<◌, ◌≤◌};
ghost use Rattle.paper.specs.Job.{y_of, port_of};
ghost use Rattle.paper.specs.Given.{badness_of};
ghost use Rattle.paper.specs.Leaders.{distance, length_of, bends_of};
ghost use Rattle.paper.specs.Layouts.{leader, cost_of, weighted as weightedCost};
ghost use Rattle.paper.specs.laws.Totals.{total_of};
ghost use Rattle.paper.specs.laws.Accepted.{Fair};
ghost use Rattle.job.specs.Board.{board_on, pads_on, ports_on, AcceptedOn};
ghost use Rattle.measure.specs.Given.{PadAndPort, InRange, Entries};

use job::Job;
use paper::{Badness, Weights};

// The hand of the leader of pad i to port q: how long it is.
fn hand(job: &Job, i: u16, q: u16) -> u64
    requires { PadAndPort job.now i q }
    ensures { (result ≡ distance (y_of job.now.pads.now i) (port_of job.now.form job.now.ports.now q)) × (result < 4294967296) }
{
    job.y(i).abs_diff(job.port(q))
}

// The length of that leader.
#[tactic(auto, unfolding(paper::specs::Leaders::length_of))]
pub fn length(job: &Job, i: u16, q: u16) -> u64
    requires { PadAndPort job.now i q }
    ensures { (result ≡ length_of (leader (board_on job.now) i q)) × (result < 8589934592) }
{
    u64::from(job.x(i)) + hand(job, i, q)
}

// Its bends.
#[tactic(auto, unfolding(paper::specs::Leaders::bends_of))]
pub fn bends(job: &Job, i: u16, q: u16) -> u64
    requires { PadAndPort job.now i q }
    ensures { (result ≡ bends_of (leader (board_on job.now) i q)) × (result ≤ 1) }
{
    u64::from(hand(job, i, q) != 0)
}

// What it costs with these weights: 32 bits hold it in every accepted job, and so narrow, the compiler works out four at a time.
#[tactic(auto, unfolding(paper::specs::Layouts::weighted))]
pub fn weighted(job: &Job, w: Weights, i: u16, q: u16) -> u32
    requires accepted { AcceptedOn job.now × InRange w }
    requires leader { PadAndPort job.now i q }
    ensures { result ≡ weightedCost (board_on job.now) w.length w.bend i q }
{
    w.length * (length(job, i, q) as u32) + w.bend * (bends(job, i, q) as u32)
}

// What the leader of pad i to port q costs.
fn cost(bad: Badness, job: &Job, i: u16, q: u16) -> u32
    requires accepted { AcceptedOn job.now × Fair (board_on job.now) (badness_of bad) }
    requires leader { PadAndPort job.now i q }
    ensures { result ≡ cost_of (board_on job.now) (badness_of bad.entry) i q }
{
    match bad {
        Badness::Weights(w) => weighted(job, w, i, q),
        Badness::Table(figures) => {
            let p = job.port_count();
            figures[usize::from(i) * usize::from(p) + usize::from(q)]
        }
    }
}

// The total of the layout that a list holds: entries that are port numbers are enough.
pub fn total(bad: Badness, job: &Job, list: &[u16]) -> u64
    requires accepted { AcceptedOn job.now × Fair (board_on job.now) (badness_of bad) }
    requires entries { Entries list.now (pads_on job.now) (ports_on job.now) }
    ensures { result ≡ total_of (board_on job.now) (badness_of bad.entry) list.now }
{
    let mut sum: u64 = 0;
    for i in 0..job.count() {
        let q = list[usize::from(i)];
        sum += u64::from(cost(bad, job, i, q));
    }
    sum
}
