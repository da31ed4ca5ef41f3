// The calls as Rattle functions: here on records, by weights or by a table, in `slotted` where ports may stay free. Each keeps the promise of its name in
// paper's Promises.antt, for every input.
#![tactic(auto)]

mod figures;
mod search;
pub mod slotted;

ghost use Rattle.std.specs.Prelude.{◌≡◌, length};
ghost use Rattle.paper.specs.Job.{records};
ghost use Rattle.paper.specs.Given.{badness_of};
ghost use Rattle.paper.specs.Layouts.{board_of, leader};
ghost use Rattle.paper.specs.Refusals.{Passed, draw_trials};
ghost use Rattle.paper.specs.Promises.{number, counted_number, FirstAnswers, NextAnswers, PageAnswers, MeasureAnswers, DrawAnswers};
ghost use Rattle.paper.specs.Promises.{CountAnswers, PlaceAnswers, SvgAnswers, CsvAnswers, BufferPromise};
ghost use Rattle.paper.specs.laws.Drawn.{leader_drawn};

use checks::verdicts;
use figures::with_figures;
use job::Job;
use paper::{Answer, Badness, Counted, Drawn, Polyline, Weights};

// First: the earliest best layout, in the first n entries of `list`.
pub fn first(job: &[u8], bad: Badness, list: &mut [u16]) -> Answer
    ensures { FirstAnswers (records job.now) (badness_of bad.entry) None list.old result list.new }
{
    verdicts::of_first(&Job::of_records(job), &bad, None, list.len())?;
    let total = with_figures(job, bad, list, &mut [], |figures, list, _| {
        search::first(job, figures, list)
    })?;
    Ok(Some(total))
}

// Next: the earliest best layout after the one in `list`.
pub fn next(job: &[u8], bad: Badness, list: &mut [u16]) -> Answer
    ensures { NextAnswers (records job.now) (badness_of bad.entry) None list.old result list.new }
{
    verdicts::of_measure(&Job::of_records(job), &bad, None, list)?;
    let total = with_figures(job, bad, list, &mut [], |figures, list, _| {
        search::next(job, figures, list)
    })?;
    Ok(total)
}

// Page: the best layouts after the one in `list`, one after the other in `page`.
pub fn page(job: &[u8], bad: Badness, list: &[u16], page: &mut [u16]) -> Counted
    ensures { PageAnswers (records job.now) (badness_of bad.entry) None list.now page.old result page.new }
{
    verdicts::of_measure(&Job::of_records(job), &bad, None, list)?;
    let walked = with_figures(job, bad, page, &mut [], |figures, page, _| {
        search::page(job, figures, list, page)
    })?;
    Ok(walked.count)
}

// Count: how many best layouts there are. It takes no list: First's checks are passed with room for a layout.
pub fn count(job: &[u8], bad: Badness, buffer: &mut [u64]) -> Counted
    ensures count_answers { CountAnswers (records job.now) (badness_of bad.entry) (length buffer.old) result }
    ensures buffer_promise { BufferPromise (counted_number result) buffer.old buffer.new }
{
    verdicts::of_first(&Job::of_records(job), &bad, None, job.len() / 16)?;
    let count = with_figures(job, bad, &mut [], buffer, |figures, _, buffer| {
        numbering::count(job, figures, buffer)
    })?;
    Ok(count)
}

// Place: the best layout at that place, counted from 0, in the first n entries of `list`.
pub fn place(job: &[u8], bad: Badness, place: u64, list: &mut [u16], buffer: &mut [u64]) -> Answer
    ensures place_answers { PlaceAnswers (records job.now) (badness_of bad.entry) (length buffer.old) place list.old result list.new }
    ensures buffer_promise { BufferPromise (number result) buffer.old buffer.new }
{
    verdicts::of_first(&Job::of_records(job), &bad, None, list.len())?;
    let total = with_figures(job, bad, list, buffer, |figures, list, buffer| {
        numbering::place(job, figures, place, list, buffer)
    })?;
    Ok(Some(total))
}

// Measure: the total of an untouching layout, best or not.
pub fn measure(job: &[u8], bad: Badness, list: &[u16]) -> Answer
    ensures { MeasureAnswers (records job.now) (badness_of bad.entry) list.now result }
{
    let records = Job::of_records(job);
    verdicts::of_measure(&records, &bad, None, list)?;
    Ok(Some(measure::total(bad, &records, list)))
}

// The leader of the pad of record i to port q, read from the job's bytes.
fn lead(job: &[u8], i: u32, q: u32, room: usize) -> Polyline
    requires { Passed (draw_trials job.now i q room) }
    ensures { Ok result ≡ leader_drawn (leader (board_of (records job.now)) i q) }
{
    let records = Job::of_records(job);
    let pad = i as u16;
    let port = q as u16;
    draw::lead(records.x(pad), records.y(pad), records.port(port))
}

// Draw: the leader of the pad of record i to port q, in the first places of `points`.
pub fn draw(job: &[u8], i: u32, q: u32, points: &mut [f32]) -> Drawn
    ensures { DrawAnswers job.now i q points.old result points.new }
{
    verdicts::of_draw(job, i, q, points.len())?;
    let line = Ok(lead(job, i, q, points.len()));
    draw::put(line, points);
    line
}

// Svg: the leaders of an untouching layout, best or not, as text in the first bytes of `text`. Its checks are Measure's, and weights 0 and 0 pass.
pub fn svg(job: &[u8], list: &[u16], text: &mut [u8]) -> Counted
    ensures { SvgAnswers job.now list.now text.old result text.new }
{
    let nothing = Badness::Weights(Weights { length: 0, bend: 0 });
    verdicts::of_measure(&Job::of_records(job), &nothing, None, list)?;
    svg::sheet(job, list, text)
}

// ReadCsv: the pads of a list in text, as records in the first bytes of `pads`.
pub fn read_csv(text: &[u8], pads: &mut [u8]) -> Counted
    ensures { CsvAnswers text.now pads.old result pads.new }
{
    importing::read(text, pads)
}
