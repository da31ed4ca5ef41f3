// The printed sheet of a job: 01, "The printing program". It is made in lent bytes; a program writes them out.
// A field has at most 21 bytes. So 5,424 are enough: 64 lines of four fields, and the last of two and a word.
#![tactic(auto)]

ghost use Rattle.std.specs.Prelude.{◌≡◌, ◌+◌, ◌≤◌, ◌<◌, length, take};
ghost use Rattle.paper.specs.Job.{records, count};
ghost use Rattle.paper.specs.Layouts.{by_weights};
ghost use Rattle.paper.specs.Refusals.{Passed, measure_trials};
ghost use Rattle.text.specs.Text.{Writes};
ghost use Rattle.printed.specs.Printed.{Prints};
ghost use Rattle.printed.specs.Printed.{line as Line-of, lines as lines_of, lengths as lengths-of, sheet as sheet-of, refused as refused-of};

use job::Job;
use paper::{Badness, Refusal, Weights};

// The line of record i, led to port q.
// Stays: bytes and a place are apart, as in `text`.
fn line(job: &[u8], i: u16, q: u16, out: &mut [u8], at: usize) -> usize
    requires { (i < count job.now) × (q < count job.now) × (at + 84 ≤ length out.old) }
    ensures { Writes out.old at (Line-of job.now i q) result out.new × (result ≤ at + 84) }
{
    let records = Job::of_records(job);
    let a = text::field(u64::from(records.name(i)), b' ', out, at);
    let b = text::field(u64::from(q), b' ', out, a);
    let c = text::field(measure::length(&records, i, q), b' ', out, b);
    text::field(measure::bends(&records, i, q), b'\n', out, c)
}

// The lines of all records.
fn lines(job: &[u8], list: &[u16], out: &mut [u8]) -> usize
    requires { Passed (measure_trials (records job.now) (by_weights 0 1) None list.now) × (5424 ≤ length out.old) }
    ensures { Writes out.old 0 (lines_of job.now list.now (count job.now)) result out.new × (result ≤ 5376) }
{
    let mut at = 0;
    for i in 0..Job::of_records(job).count() {
        at = line(job, i, list[usize::from(i)], out, at);
    }
    at
}

// The sheet of a layout: its lines, and the sums of lengths and of bends. The first is First's total with the weights 1, 0.
fn laid_out(job: &[u8], lengths: u64, list: &[u16], out: &mut [u8]) -> usize
    requires { Passed (measure_trials (records job.now) (by_weights 0 1) None list.now) × (lengths ≡ lengths-of job.now list.now) × (5424 ≤ length out.old) }
    ensures { Writes out.old 0 (sheet-of job.now list.now) result out.new × (result ≤ 5424) }
{
    let each_bend = Badness::Weights(Weights { length: 0, bend: 1 });
    let bends = measure::total(each_bend, &Job::of_records(job), list);
    let end = lines(job, list, out);
    let a = text::word(b"total ", out, end);
    let b = text::field(lengths, b' ', out, a);
    text::field(bends, b'\n', out, b)
}

// The one line of a refused job.
fn refused(refusal: Refusal, out: &mut [u8]) -> usize
    requires { 5424 ≤ length out.old }
    ensures { Writes out.old 0 (refused-of refusal) result out.new × (result ≤ 5424) }
{
    let a = text::word(b"refused ", out, 0);
    let b = text::field(u64::from(refusal.reason), b' ', out, a);
    let c = text::word(b"record ", out, b);
    text::field(u64::from(refusal.at), b'\n', out, c)
}

// The printed sheet of a job, or the line of its refusal, at the start of `out`. Answers how many bytes it has. (First never answers end.)
pub fn sheet(job: &[u8], out: &mut [u8]) -> usize
    requires { 5424 ≤ length out.old }
    ensures prints { Prints job.now out.old result out.new }
    ensures upper_bound { (result ≤ length out.new) × (result ≡ length (take result out.new)) }
{
    // Stays: no call allocates, so there is room for 64 entries.
    let mut list = [0u16; 64];
    let each_unit = Badness::Weights(Weights { length: 1, bend: 0 });
    match calls::first(job, each_unit, &mut list) {
        Ok(Some(lengths)) => laid_out(job, lengths, &list, out),
        Ok(None) => 0,
        Err(refusal) => refused(refusal, out),
    }
}
