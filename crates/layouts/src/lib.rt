// First, Next and Page on a job that has passed the checks: each is a walk over the lists of the job's board, with its own room. By a table, which is
// read where it is lent, the search has its table of least totals on the stack (`full`); by weights it has it in the work list that is lent (`slotted`).
#![tactic(auto)]

mod full;
mod slotted;

ghost use Rattle.std.specs.Prelude.{◌≡◌, ◌≤◌, length};
ghost use Rattle.job.specs.Board.{board_on, pads_on};
ghost use Rattle.paper.specs.Layouts.{held, Untouching};
ghost use Rattle.walks.specs.Walks.{Walks};
ghost use Rattle.layouts.specs.Replies.{rules_of, problem_on, Workable, StartOn, FirstOn, NextOn, PageOn, refused_for};

use job::Job;
use paper::{Badness, Reason, Refusal};
use walks::{Start, Walked};

// Why First, Next and Page refuse a job that passed the checks: no layout is untouching, or the given one is not best.
#[derive(Clone, Copy, Debug, PartialEq, Eq)]
pub enum Unmet {
    NoLayout,
    NotBest,
}

impl From<Unmet> for Refusal {
    ghost from_gives = { λ u r. r ≡ refused_for u };

    fn from(u: Unmet) -> Refusal {
        let reason = match u {
            Unmet::NoLayout => Reason::NoLayout,
            Unmet::NotBest => Reason::NotBest,
        };
        Refusal::of_whole(reason)
    }
}

// A walk through the best layouts of a job.
fn walk(
    start: Start,
    job: &Job,
    bad: &Badness,
    w: &mut [u16],
    page: &mut [u16],
    work: &mut [u64],
) -> Option<Walked>
    requires workable { Workable job.now bad.now (length work.old) }
    requires start_on { StartOn start (board_on job.now) w.old }
    ensures { Walks (rules_of (problem_on job.now bad.now)) (pads_on job.now) start w.old page.old w.new page.new result }
{
    match bad {
        Badness::Table(figures) => full::walk(start, job, figures, w, page),
        Badness::Weights(weights) => slotted::walk(start, job, *weights, w, page, work),
    }
}

// First: a walk from the earliest best layout, with room for none on its page.
pub fn first_on(
    job: &Job,
    bad: &Badness,
    layout: &mut [u16],
    work: &mut [u64],
) -> Result<u64, Unmet>
    requires workable { Workable job.now bad.now (length work.old) }
    requires room { pads_on job.now ≤ length layout.old }
    ensures { FirstOn (problem_on job.now bad.now) layout.old layout.new result }
{
    match walk(Start::First, job, bad, layout, &mut [], work) {
        Some(r) => Ok(r.total),
        None => Err(Unmet::NoLayout),
    }
}

// Next: a walk from an untouching layout, with room for one.
pub fn next_on(
    job: &Job,
    bad: &Badness,
    layout: &mut [u16],
    work: &mut [u64],
) -> Result<Option<u64>, Unmet>
    requires workable { Workable job.now bad.now (length work.old) }
    requires untouching { (pads_on job.now ≤ length layout.old) × Untouching (board_on job.now) (held layout.old) }
    ensures { NextOn (problem_on job.now bad.now) layout.old layout.new result }
{
    let n = usize::from(job.count());
    let mut page = [0u16; 64];
    match walk(Start::Given, job, bad, layout, &mut page[..n], work) {
        Some(r) => {
            if r.count == 0 {
                Ok(None)
            } else {
                Ok(Some(r.total))
            }
        }
        None => Err(Unmet::NotBest),
    }
}

// Page: a walk from a copy of an untouching layout, with the room of a page.
pub fn page_on(
    job: &Job,
    bad: &Badness,
    layout: &[u16],
    page: &mut [u16],
    work: &mut [u64],
) -> Result<Walked, Unmet>
    requires workable { Workable job.now bad.now (length work.old) }
    requires untouching { (pads_on job.now ≤ length layout.now) × Untouching (board_on job.now) (held layout.now) }
    ensures { PageOn (problem_on job.now bad.now) layout.now page.old page.new result }
{
    let n = usize::from(job.count());
    let mut w = [0u16; 64];
    w[..n].copy_from_slice(&layout[..n]);
    match walk(Start::Given, job, bad, &mut w, page, work) {
        Some(r) => Ok(r),
        None => Err(Unmet::NotBest),
    }
}
