// The reference model (01: the plain book): document 01 as definitions, in `specs/`, and the types
// that the entry points of the crates above take and answer.
#![tactic(auto)]

ghost use Rattle.std.specs.Prelude.{◌≡◌};
ghost use Rattle.model.specs.StepList.{steps_in};
ghost use Rattle.model.specs.Refusals.{number};
ghost use Rattle.model.specs.Operations.{kind, border_sides};

use neighbours::{ALL_SIDES, NO_SIDE};

mod list;

pub use list::Steps;

// A label as a map holds it, and the greatest (02, Point 1: numbers of 16 bits).
pub type Label = u16;

pub const MAX_LABELS: usize = 65535;

// The entries of a component's record.
pub const RECORD_LENGTH: usize = 10;

// The largest side of a crop in a job, and the steps of a job.
pub const MAX_JOB_SIDE: usize = 256;

pub const MAX_STEPS: usize = 32;

// The bytes of a job's head.
pub const HEAD_LENGTH: usize = 8;

// The pixels that the lane program takes, and the records that it keeps.
pub const LANE_PIXELS: usize = 8192;

pub const LANE_RECORDS: usize = 1024;

// Why a call is refused, by the documents' numbers.
#[derive(Clone, Copy)]
pub enum Refusal {
    // The width or the height is outside 1 to 256.
    BadSize = 1,
    // An image, a mask, a map, packed rows or a buffer for a job have another length than needed.
    BadLength = 2,
    // The queue has fewer entries than the crop has pixels.
    QueueTooShort = 3,
    // A pixel of the image or of the mask is neither 0 nor 1.
    BadPixel = 4,
    // The connectivity is neither 4 nor 8.
    BadConnectivity = 5,
    // The border value is neither 0 nor 1, or the number of the sides is above 15.
    BadBorderValue = 6,
    // The position to fill from is outside the crop.
    SeedOutside = 7,
    // The contour handed in is not exactly the image's.
    WrongContour = 8,
    // There are over 65,535 components, which no crop of at most 65,536 pixels has.
    TooManyComponents = 9,
    // There are over 65,535 holes, which no such crop has either.
    TooManyHoles = 10,
    // There are fewer than ten record entries for each component.
    TooFewRecords = 11,
    // The job is empty or of another version.
    BadVersion = 12,
    // The job has another length than its fields say.
    BadJobLength = 13,
    // A step record is of no known kind, or of another length than its kind has.
    BadStep = 14,
    // The job has over 32 steps.
    TooManySteps = 15,
    // A padding bit of a packed image is set.
    BadPadding = 16,
    // The crop has more pixels than the program takes.
    TooManyPixels = 17,
    // An unused bit of a row's last word is set.
    UnusedBitSet = 18,
}

// 01's number of a refusal.
impl From<Refusal> for u8 {
    ghost from_gives = { λ refusal n. n ≡ number refusal };

    fn from(refusal: Refusal) -> u8 {
        refusal as u8
    }
}

// A step in hand (01): one operation of a list, of six kinds, each with its own fields.
#[derive(Clone, Copy)]
pub enum Step {
    Erode {
        connectivity: u8,
        border_value: u8,
        iterations: u16,
    },
    Dilate {
        connectivity: u8,
        iterations: u16,
    },
    Propagate {
        connectivity: u8,
        iterations: u16,
    },
    // 01: fill.
    FloodFill {
        connectivity: u8,
        x: u16,
        y: u16,
    },
    // 01: drop.
    ClearBorder {
        connectivity: u8,
    },
    // 02, Point 6: erosion by sides. `sides` is the sum of the sides that count as object: 1 top, 2 right,
    // 4 bottom, 8 left.
    ErodeBySides {
        connectivity: u8,
        sides: u8,
        iterations: u16,
    },
}

// The sides that a border value names: none for 0, else all.
pub fn border_sides(border_value: u8) -> u8
    ensures { result ≡ border_sides border_value }
{
    if border_value == 0 {
        return NO_SIDE;
    }
    ALL_SIDES
}

// The kind of a step: 01's number, which is a byte of a job.
pub fn kind_of(step: Step) -> u8
    ensures { result ≡ kind step }
{
    match step {
        Step::Erode { .. } => 1,
        Step::Dilate { .. } => 2,
        Step::Propagate { .. } => 3,
        Step::FloodFill { .. } => 4,
        Step::ClearBorder { .. } => 5,
        Step::ErodeBySides { .. } => 7,
    }
}

// How an operation finds the contour it starts from. No `Option` of a length: 01 names both ways.
#[derive(Clone, Copy)]
pub enum Start {
    // By a scan of the image (01: a sweep).
    Scan,
    // From the contour of this length that the caller hands in at the queue's front.
    Contour(usize),
}

// The three numbers of an operation.
#[derive(Clone, Copy)]
pub struct Report {
    // Pixels that differ before and after.
    pub changed: u32,
    // The least number of iterations that gives the same image.
    pub used: u32,
    // Positions of the contour, which stand at the queue's front.
    pub contour_len: u32,
}

// The two numbers of a scan by itself (02, Point 3).
#[derive(Clone, Copy)]
pub struct ScanReport {
    // Positions of the contour, which stand at the queue's front.
    pub contour_len: u32,
    // Rows without an object pixel, which the scan passed over.
    pub blank_rows: u32,
}

// The three numbers of an operation on packed rows (02, Point 2).
#[derive(Clone, Copy)]
pub struct WordsReport {
    // Pixels that differ before and after.
    pub changed: u32,
    // The least number of iterations that gives the same image.
    pub used: u32,
    // Object pixels of the result.
    pub area: u32,
}

// What labelling counts.
#[derive(Clone, Copy)]
pub struct Counts {
    pub components: u32,
    pub holes: u32,
}

// ---- lists of steps, jobs

impl Steps {
    // The steps.
    pub fn as_slice(&self) -> &[Step]
        ensures { result.now ≡ steps_in self.now }
    {
        &self.slots[..self.count]
    }
}

// What is read of a job. Its packed images begin at byte `at`.
#[derive(Clone, Copy)]
pub struct JobHead {
    pub width: usize,
    pub height: usize,
    pub steps: Steps,
    pub at: usize,
}

// The numbers of a run: those of each step, as the first `count` reports, with zeros behind them, and how many
// positions at the queue's front are the last image's contour.
#[derive(Clone, Copy)]
pub struct RunReport {
    pub reports: [Report; MAX_STEPS],
    pub count: usize,
    pub contour_len: u32,
}
