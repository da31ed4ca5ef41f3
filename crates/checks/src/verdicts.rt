// The checks of each call, in order: the first refusal ends them.
ghost use Rattle.std.specs.Prelude.{◌≡◌, ◌*◌, ◌≤◌, length, take};
ghost use Rattle.paper.specs.Given.{badness_of};
ghost use Rattle.paper.specs.Layouts.{held};
ghost use Rattle.paper.specs.laws.Tests.{at_pairs, records_touch};
ghost use Rattle.paper.specs.laws.Tests.{size_tests, enough_tests, work_tests, room_tests, field_tests, board_tests, job_tests, layout_tests, badness_test, sound_tests, measure_tests, draw_tests};
ghost use Rattle.paper.specs.laws.Imported.{record_tests, row_tests};
ghost use Rattle.job.specs.Board.{board_on, pads_on, ports_on};
ghost use Rattle.checks.specs.Verdicts.{outcome, verdict, on_job, shared_tests, Formed, Short, Few, Led};

use crate::tries::{at_record, each, pairs, stood, whole};
use job::Job;
use paper::{Badness, Form, Reason, Refusal};

// 1: the records; or the pads and then the ports.
fn of_sizes(job: &Job) -> Result<(), Refusal>
    ensures { result ≡ verdict (on_job size_tests job.now) }
{
    whole(Reason::BadSize, faults::bad_size(16, 1024, job.pads))?;
    match job.form {
        Form::Records => Ok(()),
        Form::Slots => whole(Reason::BadSize, faults::bad_size(4, 512, job.ports)),
    }
}

// 2, of weights; 13, of a table.
fn of_badness(job: &Job, bad: &Badness) -> Result<(), Refusal>
    ensures { result ≡ outcome (badness_test (board_on job.now) (badness_of bad.now)) }
{
    match bad {
        Badness::Weights(w) => whole(Reason::BadWeight, faults::bad_weight(*w)),
        Badness::Table(figures) => {
            whole(Reason::BadTable, faults::bad_table(job, figures.len()))
        }
    }
}

// 14: where ports stand apart, there may be fewer than pads.
fn of_enough(job: &Job) -> Result<(), Refusal>
    ensures { result ≡ verdict (on_job enough_tests job.now) }
{
    match job.form {
        Form::Records => Ok(()),
        Form::Slots => whole(
            Reason::TooFewPorts,
            job.ports.len() / 4 < job.pads.len() / 16,
        ),
    }
}

// 24, where a work list is lent.
fn of_work(job: &Job, work: Option<usize>) -> Result<(), Refusal>
    requires { Few job.now }
    ensures { result ≡ verdict (work_tests (pads_on job.now) (ports_on job.now) work) }
{
    match work {
        Some(numbers) => {
            let n = usize::from(job.count());
            let p = usize::from(job.port_count());
            whole(Reason::NoWorkRoom, faults::short_work(n, p, numbers))
        }
        None => Ok(()),
    }
}

// 3, 14 and 24: the room that is lent.
fn of_room(job: &Job, work: Option<usize>, room: usize) -> Result<(), Refusal>
    requires { Few job.now }
    ensures { result ≡ verdict (on_job room_tests job.now work room) }
{
    whole(Reason::NoRoom, room < job.pads.len() / 16)?;
    of_enough(job)?;
    of_work(job, work)
}

// 4: the records; or the pads and then the ports.
fn of_fields(job: &Job) -> Result<(), Refusal>
    requires { Short job.now }
    ensures { result ≡ verdict (on_job field_tests job.now) }
{
    each(Reason::BadField, job.count(), |i| faults::bad_field(job, i))?;
    match job.form {
        Form::Records => Ok(()),
        Form::Slots => each(
            Reason::BadField,
            job.port_count(),
            |q| faults::bad_height(job, q),
        ),
    }
}

// 6 and 7: what no two pads share.
fn of_shared(job: &Job) -> Result<(), Refusal>
    requires { Short job.now }
    ensures { result ≡ verdict (shared_tests job.now.pads.now) }
{
    let n = job.count();
    stood(Reason::NameTwice, n, |i, j| faults::same_name(job, i, j))?;
    stood(Reason::XTwice, n, |i, j| faults::same_x(job, i, j))
}

// 5 and 12 of the ports, 6 and 7 of the pads.
fn of_board(job: &Job) -> Result<(), Refusal>
    requires { Short job.now }
    ensures { result ≡ verdict (on_job board_tests job.now) }
{
    let p = job.port_count();
    each(Reason::PortNotAbove, p, |q| faults::not_above(job, q))?;
    each(Reason::PortTooClose, p, |q| faults::too_close(job, q))?;
    of_shared(job)
}

// 4 to 7, and 12 directly after 5. It goes into its callers: as a call of its own it takes 16 bytes of stack more than Draw is stated to.
#[inline(always)]
pub fn of_job(job: &Job) -> Result<(), Refusal>
    requires { Short job.now }
    ensures { result ≡ verdict (on_job job_tests job.now) }
{
    of_fields(job)?;
    of_board(job)
}

// 9: the leaders of the records, two at a time.
fn of_leaders(job: &Job, list: &[u16]) -> Result<(), Refusal>
    requires { Short job.now × Led list.now (pads_on job.now) (ports_on job.now) }
    ensures { result ≡ outcome (at_pairs 9 (pads_on job.now) (records_touch (board_on job.now) (held list.now))) }
{
    pairs(
        Reason::Touching,
        job.count(),
        |i, j| faults::touches(job, list, i, j),
    )
}

// 8 and 9: the layout.
pub fn of_layout(job: &Job, list: &[u16]) -> Result<(), Refusal>
    requires { Few job.now × (pads_on job.now ≤ length list.now) }
    ensures { result ≡ verdict (layout_tests (board_on job.now) list.now) }
{
    at_record(
        Reason::BadEntry,
        find::first_bad_entry(list, job.count(), job.port_count()),
    )?;
    of_leaders(job, list)
}

// First, with such a work list and room for so many entries: 1, 2 or 13, 3, 14, 24 and the job's. Its 15 is found by the search.
pub fn of_first(job: &Job, bad: &Badness, work: Option<usize>, room: usize) -> Result<(), Refusal>
    requires { Formed job.now }
    ensures { result ≡ verdict (on_job sound_tests job.now (badness_test (board_on job.now) (badness_of bad.now)) work room) }
{
    of_sizes(job)?;
    of_badness(job, bad)?;
    of_room(job, work, room)?;
    of_job(job)
}

// Measure: First's, 8 and 9.
pub fn of_measure(
    job: &Job,
    bad: &Badness,
    work: Option<usize>,
    list: &[u16],
) -> Result<(), Refusal>
    requires { Formed job.now }
    ensures { result ≡ verdict (on_job measure_tests job.now (badness_test (board_on job.now) (badness_of bad.now)) work list.now) }
{
    of_first(job, bad, work, list.len())?;
    of_layout(job, list)
}

// Draw of record i to port q, with room for so many floats: 1, 3, the job's and 11.
pub fn of_draw(job: &[u8], i: u32, q: u32, room: usize) -> Result<(), Refusal>
    ensures { result ≡ verdict (draw_tests job.now i q room) }
{
    let records = Job::of_records(job);
    of_sizes(&records)?;
    whole(Reason::NoRoom, room < 6)?;
    of_job(&records)?;
    whole(Reason::BadNumber, faults::bad_number(job, i, q))
}

// 4, 6 and 7 of pad records alone.
fn of_pads(bytes: &[u8]) -> Result<(), Refusal>
    requires { length bytes.now ≤ 1024 }
    ensures { result ≡ verdict (record_tests bytes.now) }
{
    let pads = Job::of_slots(bytes, &[]);
    each(
        Reason::BadField,
        pads.count(),
        |i| faults::bad_field(&pads, i),
    )?;
    of_shared(&pads)
}

// ReadCsv, of a list that was read: n pads, the first 64 or fewer of them made into records, and room for so many bytes: 1, 22 and the pads'.
pub fn of_list(made: &[u8], n: u16, room: usize) -> Result<(), Refusal>
    requires { 1024 ≤ length made.now }
    ensures { result ≡ verdict (row_tests n (take (16 * n) made.now) room) }
{
    let bytes = 16 * usize::from(n);
    whole(Reason::BadSize, (n == 0) | (64 < n))?;
    whole(Reason::NoPadRoom, room < bytes)?;
    of_pads(&made[..bytes])
}
