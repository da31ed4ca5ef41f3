// The calls on a job of the second form, by weights: pads, and ports in a list of their own, some of which may stay free.
ghost use Rattle.std.specs.Prelude.{length};
ghost use Rattle.paper.specs.Job.{slots};
ghost use Rattle.paper.specs.Layouts.{by_weights};
ghost use Rattle.paper.specs.Promises.{FirstAnswers, NextAnswers, MeasureAnswers, WorkAfter};

use checks::verdicts;
use job::Job;
use paper::{Answer, Badness, Weights};

// First: the earliest best layout, in the first n entries of `list`.
pub fn first(
    pads: &[u8],
    ports: &[u8],
    weights: Weights,
    list: &mut [u16],
    work: &mut [u64],
) -> Answer
    ensures first_answers { FirstAnswers (slots pads.now ports.now) (by_weights weights.length weights.bend) (Some (length work.old)) list.old result list.new }
    ensures work_after { WorkAfter result work.old work.new }
{
    let job = Job::of_slots(pads, ports);
    let bad = Badness::Weights(weights);
    verdicts::of_first(&job, &bad, Some(work.len()), list.len())?;
    let total = layouts::first_on(&job, &bad, list, work)?;
    Ok(Some(total))
}

// Next: the earliest best layout after the one in `list`.
pub fn next(
    pads: &[u8],
    ports: &[u8],
    weights: Weights,
    list: &mut [u16],
    work: &mut [u64],
) -> Answer
    ensures next_answers { NextAnswers (slots pads.now ports.now) (by_weights weights.length weights.bend) (Some (length work.old)) list.old result list.new }
    ensures work_after { WorkAfter result work.old work.new }
{
    let job = Job::of_slots(pads, ports);
    let bad = Badness::Weights(weights);
    verdicts::of_measure(&job, &bad, Some(work.len()), list)?;
    let total = layouts::next_on(&job, &bad, list, work)?;
    Ok(total)
}

// Measure: the total of an untouching layout, best or not.
pub fn measure(pads: &[u8], ports: &[u8], weights: Weights, list: &[u16]) -> Answer
    ensures { MeasureAnswers (slots pads.now ports.now) (by_weights weights.length weights.bend) list.now result }
{
    let job = Job::of_slots(pads, ports);
    let bad = Badness::Weights(weights);
    verdicts::of_measure(&job, &bad, None, list)?;
    Ok(Some(measure::total(bad, &job, list)))
}
