// The calls for C. A slice is a pointer and a count of elements. include/cheremysl.h is the manual; what each call promises, for every
// input, is the promise of its name in paper's Promises.antt.
#![tactic(auto)]

ghost use Rattle.std.specs.Prelude.{◌≡◌, ℤ, length};
ghost use Rattle.paper.specs.Job.{records, slots};
ghost use Rattle.paper.specs.Given.{badness_of};
ghost use Rattle.paper.specs.Layouts.{by_weights, by_table};
ghost use Rattle.paper.specs.Promises.{refusal_number, number, counted_number, drawn_number};
ghost use Rattle.paper.specs.Promises.{FirstPromise, NextPromise, PagePromise, MeasurePromise, DrawPromise, WorkPromise};
ghost use Rattle.paper.specs.Promises.{CountPromise, PlacePromise, SvgPromise, CsvPromise, BufferPromise};
ghost use Rattle.paper.specs.laws.Bounds.{Bounded, BoundedCount};

use paper::{Answer, Badness, Counted, Drawn, Polyline, Refusal, Weights};

// What C gets: a number.
trait ForC {
    ghost Fits: { Self → Type 0 };

    ghost number_of: { Self → ℤ };

    fn for_c(self) -> i64
        requires { Fits self }
        ensures { result ≡ number_of self };
}

impl ForC for Refusal {
    ghost Fits = { λ r. Unit {0} };

    ghost number_of = { refusal_number };

    fn for_c(self) -> i64 {
        let n = 4294967296 * u64::from(self.earlier)
            + 65536 * u64::from(self.reason)
            + u64::from(self.at);
        -(n as i64)
    }
}

impl ForC for Answer {
    ghost Fits = { Bounded };

    ghost number_of = { number };

    fn for_c(self) -> i64 {
        match self {
            Ok(Some(total)) => total as i64,
            Ok(None) => -1,
            Err(refusal) => refusal.for_c(),
        }
    }
}

// Of a page, a count, a text or a list.
impl ForC for Counted {
    ghost Fits = { BoundedCount };

    ghost number_of = { counted_number };

    fn for_c(self) -> i64 {
        match self {
            Ok(count) => count as i64,
            Err(refusal) => refusal.for_c(),
        }
    }
}

// The number of its points.
impl ForC for Drawn {
    ghost Fits = { λ d. Unit {0} };

    ghost number_of = { drawn_number };

    fn for_c(self) -> i64 {
        match self {
            Ok(Polyline::Straight { .. }) => 2,
            Ok(Polyline::Bent { .. }) => 3,
            Err(refusal) => refusal.for_c(),
        }
    }
}

// The two weights that C passes: as weights, and as what a leader costs by.
fn of_c(length: u32, bend: u32) -> Weights
    ensures { result ≡ record { length = length; bend = bend } }
{
    Weights { length, bend }
}

fn by_c(length: u32, bend: u32) -> Badness<'static>
    ensures { badness_of result ≡ by_weights length bend }
{
    Badness::Weights(of_c(length, bend))
}

#[unsafe(no_mangle)]
pub extern "C" fn cheremysl_first(
    job: &[u8],
    length_weight: u32,
    bend_weight: u32,
    layout: &mut [u16],
) -> i64
    ensures { FirstPromise (records job.now) (by_weights length_weight bend_weight) None layout.old result layout.new }
{
    calls::first(job, by_c(length_weight, bend_weight), layout).for_c()
}

#[unsafe(no_mangle)]
pub extern "C" fn cheremysl_next(
    job: &[u8],
    length_weight: u32,
    bend_weight: u32,
    layout: &mut [u16],
) -> i64
    ensures { NextPromise (records job.now) (by_weights length_weight bend_weight) None layout.old result layout.new }
{
    calls::next(job, by_c(length_weight, bend_weight), layout).for_c()
}

#[unsafe(no_mangle)]
pub extern "C" fn cheremysl_page(
    job: &[u8],
    length_weight: u32,
    bend_weight: u32,
    layout: &[u16],
    page: &mut [u16],
) -> i64
    ensures { PagePromise (records job.now) (by_weights length_weight bend_weight) None layout.now page.old result page.new }
{
    calls::page(job, by_c(length_weight, bend_weight), layout, page).for_c()
}

#[unsafe(no_mangle)]
pub extern "C" fn cheremysl_measure(
    job: &[u8],
    length_weight: u32,
    bend_weight: u32,
    layout: &[u16],
) -> i64
    ensures { MeasurePromise (records job.now) (by_weights length_weight bend_weight) layout.now result }
{
    calls::measure(job, by_c(length_weight, bend_weight), layout).for_c()
}

#[unsafe(no_mangle)]
pub extern "C" fn cheremysl_count(
    job: &[u8],
    length_weight: u32,
    bend_weight: u32,
    buffer: &mut [u64],
) -> i64
    ensures count_promise { CountPromise (records job.now) (by_weights length_weight bend_weight) (length buffer.old) result }
    ensures buffer_promise { BufferPromise result buffer.old buffer.new }
{
    calls::count(job, by_c(length_weight, bend_weight), buffer).for_c()
}

#[unsafe(no_mangle)]
pub extern "C" fn cheremysl_place(
    job: &[u8],
    length_weight: u32,
    bend_weight: u32,
    place: u64,
    layout: &mut [u16],
    buffer: &mut [u64],
) -> i64
    ensures place_promise { PlacePromise (records job.now) (by_weights length_weight bend_weight) (length buffer.old) place layout.old
        result layout.new }
    ensures buffer_promise { BufferPromise result buffer.old buffer.new }
{
    calls::place(job, by_c(length_weight, bend_weight), place, layout, buffer).for_c()
}

#[unsafe(no_mangle)]
pub extern "C" fn cheremysl_table_first(job: &[u8], table: &[u32], layout: &mut [u16]) -> i64
    ensures { FirstPromise (records job.now) (by_table table.now) None layout.old result layout.new }
{
    calls::first(job, Badness::Table(table), layout).for_c()
}

#[unsafe(no_mangle)]
pub extern "C" fn cheremysl_table_next(job: &[u8], table: &[u32], layout: &mut [u16]) -> i64
    ensures { NextPromise (records job.now) (by_table table.now) None layout.old result layout.new }
{
    calls::next(job, Badness::Table(table), layout).for_c()
}

#[unsafe(no_mangle)]
pub extern "C" fn cheremysl_table_measure(job: &[u8], table: &[u32], layout: &[u16]) -> i64
    ensures { MeasurePromise (records job.now) (by_table table.now) layout.now result }
{
    calls::measure(job, Badness::Table(table), layout).for_c()
}

#[unsafe(no_mangle)]
pub extern "C" fn cheremysl_slots_first(
    pads: &[u8],
    ports: &[u8],
    length_weight: u32,
    bend_weight: u32,
    layout: &mut [u16],
    work: &mut [u64],
) -> i64
    ensures first_promise { FirstPromise (slots pads.now ports.now) (by_weights length_weight bend_weight) (Some (length work.old))
        layout.old result layout.new }
    ensures work_promise { WorkPromise result work.old work.new }
{
    calls::slotted::first(pads, ports, of_c(length_weight, bend_weight), layout, work).for_c()
}

#[unsafe(no_mangle)]
pub extern "C" fn cheremysl_slots_next(
    pads: &[u8],
    ports: &[u8],
    length_weight: u32,
    bend_weight: u32,
    layout: &mut [u16],
    work: &mut [u64],
) -> i64
    ensures next_promise { NextPromise (slots pads.now ports.now) (by_weights length_weight bend_weight) (Some (length work.old))
        layout.old result layout.new }
    ensures work_promise { WorkPromise result work.old work.new }
{
    calls::slotted::next(pads, ports, of_c(length_weight, bend_weight), layout, work).for_c()
}

#[unsafe(no_mangle)]
pub extern "C" fn cheremysl_slots_measure(
    pads: &[u8],
    ports: &[u8],
    length_weight: u32,
    bend_weight: u32,
    layout: &[u16],
) -> i64
    ensures { MeasurePromise (slots pads.now ports.now) (by_weights length_weight bend_weight) layout.now result }
{
    calls::slotted::measure(pads, ports, of_c(length_weight, bend_weight), layout).for_c()
}

#[unsafe(no_mangle)]
pub extern "C" fn cheremysl_draw(job: &[u8], record: u32, port: u32, points: &mut [f32]) -> i64
    ensures { DrawPromise job.now «record» port points.old result points.new }
{
    calls::draw(job, record, port, points).for_c()
}

#[unsafe(no_mangle)]
pub extern "C" fn cheremysl_svg(job: &[u8], layout: &[u16], text: &mut [u8]) -> i64
    ensures { SvgPromise job.now layout.now text.old result text.new }
{
    calls::svg(job, layout, text).for_c()
}

#[unsafe(no_mangle)]
pub extern "C" fn cheremysl_read_csv(text: &[u8], pads: &mut [u8]) -> i64
    ensures { CsvPromise text.now pads.old result pads.new }
{
    calls::read_csv(text, pads).for_c()
}
