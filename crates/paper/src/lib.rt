// A job's forms, and the types of the calls' answers. What they mean is in specs/: start at docs/READING.md.
#![tactic(auto)]

ghost use Rattle.std.specs.Prelude.{◌≡◌};
ghost use Rattle.paper.specs.Reasons.{number_of};
ghost use Rattle.paper.specs.Refusals.{refusal};

// The two forms of a job: records that bring a pad and a port each; or pad records, and ports in a list of their own.
#[derive(Clone, Copy, Debug, PartialEq, Eq)]
pub enum Form {
    Records,
    Slots,
}

// What length and bend count.
#[derive(Clone, Copy, Debug, PartialEq, Eq)]
pub struct Weights {
    pub length: u32,
    pub bend: u32,
}

// What a leader costs by: weights, or a table of figures, pad by pad, ports rising.
#[derive(Clone, Copy)]
pub enum Badness<'a> {
    Weights(Weights),
    Table(&'a [u32]),
}

// Why a call refuses, with the number that each reason has.
#[derive(Clone, Copy, Debug, PartialEq, Eq)]
pub enum Reason {
    BadSize = 1,
    BadWeight = 2,
    NoRoom = 3,
    BadField = 4,
    PortNotAbove = 5,
    NameTwice = 6,
    XTwice = 7,
    BadEntry = 8,
    Touching = 9,
    NotBest = 10,
    BadNumber = 11,
    PortTooClose = 12,
    BadTable = 13,
    TooFewPorts = 14,
    NoLayout = 15,
    TooMany = 16,
    PastCount = 17,
    NoBufferRoom = 18,
    TextTooLong = 19,
    CsvTooLong = 20,
    BadLine = 21,
    NoPadRoom = 22,
    NoWorkRoom = 24,
}

impl From<Reason> for u16 {
    ghost from_gives = { λ r n. n ≡ number_of r };

    fn from(reason: Reason) -> u16 {
        reason as u16
    }
}

// A refusal: why, by number, and the record at fault. In refusal 9 `earlier` is the smallest earlier record that it touches; in every other it is 0.
#[derive(Clone, Copy, Debug, PartialEq, Eq)]
pub struct Refusal {
    // Stays: the header gives C numbers, and what a refusal means to C is said of any number.
    pub reason: u16,
    pub at: u16,
    pub earlier: u16,
}

impl Refusal {
    pub fn new(reason: Reason, at: u16, earlier: u16) -> Refusal
        ensures { result ≡ refusal (number_of reason) at earlier }
    {
        Refusal {
            reason: u16::from(reason),
            at,
            earlier,
        }
    }

    // Of the input as a whole: its record number is 0.
    pub fn of_whole(reason: Reason) -> Refusal
        ensures { result ≡ refusal (number_of reason) 0 0 }
    {
        Refusal::new(reason, 0, 0)
    }
}

// What First, Next, Place and Measure answer: a total, or none where the layouts end.
pub type Answer = Result<Option<u64>, Refusal>;

// What Page, Count, Svg and ReadCsv answer: how many layouts it wrote, how many best ones there are, how many bytes it wrote, how many pads.
pub type Counted = Result<u64, Refusal>;

// A point of the canvas.
#[derive(Clone, Copy, Debug, PartialEq)]
pub struct Point {
    pub x: f32,
    pub y: f32,
}

// The points of a leader on the canvas: without a bend, or with one.
#[derive(Clone, Copy, Debug, PartialEq)]
pub enum Polyline {
    Straight {
        pad: Point,
        port: Point,
    },
    Bent {
        pad: Point,
        bend: Point,
        port: Point,
    },
}

// What Draw answers.
pub type Drawn = Result<Polyline, Refusal>;
