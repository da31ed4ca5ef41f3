// The search on a job of records, by figures that are lent.
ghost use Rattle.std.specs.Prelude.{◌≤◌, length};
ghost use Rattle.paper.specs.Job.{records, count};
ghost use Rattle.paper.specs.Layouts.{board_of, held, Untouching, by_table};
ghost use Rattle.paper.specs.Problem.{labeling_of};
ghost use Rattle.paper.specs.laws.Accepted.{AcceptedJob, Fair};
ghost use Rattle.layouts.specs.Replies.{FirstOn, NextOn, PageOn};

use job::Job;
use layouts::Unmet;
use paper::{Badness, Form};
use walks::Walked;

// Each is the search of its name over the job as a type; a table needs no work list.
pub fn first(job: &[u8], figures: &[u32], list: &mut [u16]) -> Result<u64, Unmet>
    requires { AcceptedJob (records job.now) × Fair (board_of (records job.now)) (by_table figures.now) × (count job.now ≤ length list.old) }
    ensures { FirstOn (labeling_of (records job.now) (by_table figures.now)) list.old list.new result }
{
    let job = Job {
        form: Form::Records,
        pads: job,
        ports: job,
    };
    layouts::first_on(&job, &Badness::Table(figures), list, &mut [])
}

pub fn next(job: &[u8], figures: &[u32], list: &mut [u16]) -> Result<Option<u64>, Unmet>
    requires accepted { AcceptedJob (records job.now) × Fair (board_of (records job.now)) (by_table figures.now) × (count job.now ≤ length list.old) }
    requires untouching { Untouching (board_of (records job.now)) (held list.old) }
    ensures { NextOn (labeling_of (records job.now) (by_table figures.now)) list.old list.new result }
{
    let job = Job {
        form: Form::Records,
        pads: job,
        ports: job,
    };
    layouts::next_on(&job, &Badness::Table(figures), list, &mut [])
}

pub fn page(job: &[u8], figures: &[u32], list: &[u16], page: &mut [u16]) -> Result<Walked, Unmet>
    requires accepted { AcceptedJob (records job.now) × Fair (board_of (records job.now)) (by_table figures.now) × (count job.now ≤ length list.now) }
    requires untouching { Untouching (board_of (records job.now)) (held list.now) }
    ensures { PageOn (labeling_of (records job.now) (by_table figures.now)) list.now page.old page.new result }
{
    let job = Job {
        form: Form::Records,
        pads: job,
        ports: job,
    };
    layouts::page_on(&job, &Badness::Table(figures), list, page, &mut [])
}
