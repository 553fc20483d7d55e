// Numbers for the types that cross to C.
ghost use Rattle.std.specs.Prelude.{◌≡◌, List, [], ◌∷◌, ℕ, ◌*◌, ◌≤◌, length};
ghost use Rattle.model.specs.Calls.{operate, scanned, scan_reply, Meets};
ghost use Rattle.model.specs.Refusals.{verdict_number};
ghost use Rattle.model.specs.Answers.{written_to, run_told, MeetsRun};
ghost use Rattle.job.specs.Reading.{records_in, records};
ghost use Rattle.exports.specs.Numbers.{start_of, counts_reply, report_counts, scan_counts, label_counts};
ghost use Rattle.exports.specs.Numbers.{words_counts, counts_told, HeadFits, head_counts, records_read};
ghost use Rattle.exports.specs.Numbers.{write_records, run_records, report_room, numbers_of};

use crate::{REPORT_NUMBERS, SCAN};
use job::inner::read;
use job::inner::read::StepsRead;
use judging::refuse_if;
use model::{
    Counts, JobHead, MAX_STEPS, Refusal, Report, RunReport, ScanReport, Start, Step, WordsReport,
};
use neighbours::{MAX_SIDE, Position};

// How an operation starts: the largest number asks for a scan, any other is the length of a contour.
pub fn start_of(start: usize) -> Start
    ensures { result ≡ start_of start }
{
    if start == SCAN {
        return Start::Scan;
    }
    Start::Contour(start)
}

// ---- answers

// An answer that crosses to C as `N` numbers.
pub trait Numbers<const N: usize> {
    ghost numbers: { Self → List ℕ };

    fn numbers(self) -> [u32; N]
        ensures { result ≡ numbers self };
}

impl Numbers<3> for Report {
    ghost numbers = { report_counts };

    fn numbers(self) -> [u32; 3] {
        [self.changed, self.used, self.contour_len]
    }
}

impl Numbers<2> for ScanReport {
    ghost numbers = { scan_counts };

    fn numbers(self) -> [u32; 2] {
        [self.contour_len, self.blank_rows]
    }
}

impl Numbers<2> for Counts {
    ghost numbers = { label_counts };

    fn numbers(self) -> [u32; 2] {
        [self.components, self.holes]
    }
}

impl Numbers<3> for WordsReport {
    ghost numbers = { words_counts };

    fn numbers(self) -> [u32; 3] {
        [self.changed, self.used, self.area]
    }
}

// 01's number of a verdict, 0 where nothing is refused.
pub fn verdict_number(verdict: Result<(), Refusal>) -> u8
    ensures { result ≡ verdict_number verdict }
{
    match verdict {
        Ok(()) => 0,
        Err(refusal) => u8::from(refusal),
    }
}

// Writes the numbers of an answer, which are zeros on a refusal. Returns 01's number.
pub fn put_counts<const N: usize, T: Numbers<N>>(
    reply: Result<T, Refusal>,
    counts: &mut [u32; N],
) -> u8
    ensures number { result ≡ verdict_number reply }
    ensures counts { counts.new ≡ counts_told N T.numbers reply }
{
    match reply {
        Ok(answer) => {
            *counts = answer.numbers();
            0
        }
        Err(refusal) => {
            counts.fill(0);
            u8::from(refusal)
        }
    }
}

// Writes the two numbers of a scan each by itself. Returns 01's number.
pub fn put_scan_reply(
    reply: Result<ScanReport, Refusal>,
    contour_len: &mut u32,
    blank_rows: &mut u32,
) -> u8
    ensures { scanned result contour_len.new blank_rows.new ≡ scan_reply reply }
{
    let mut counts = [0; 2];
    let number = put_counts(reply, &mut counts);
    *contour_len = counts[0];
    *blank_rows = counts[1];
    number
}

// One operation of any kind, with the start and the counts as numbers. Returns 01's number.
pub fn operate(
    width: usize,
    height: usize,
    step: Step,
    image: &mut [u8],
    mask: &[u8],
    queue: &mut [Position],
    start: usize,
    counts: &mut [u32; 3],
) -> u8
    ensures { Meets width height image.old queue.old
        (operate step mask.now (start_of start))
        (counts_reply result counts.new) image.new queue.new }
{
    let reply = morphology::operate(width, height, step, image, mask, queue, start_of(start));
    put_counts(reply, counts)
}

// ---- jobs

// What is told of a job that was read.
pub fn head_numbers(head: &JobHead) -> [u32; 4]
    requires { HeadFits head.now.width head.now.height head.now.steps.count head.now.at }
    ensures { result ≡ head_counts head.now }
{
    [
        head.width as u32,
        head.height as u32,
        head.steps.count as u32,
        head.at as u32,
    ]
}

// Reads so many step records for a crop of this size.
pub fn read_records(
    width: usize,
    height: usize,
    step_count: usize,
    bytes: &[u8],
) -> Result<StepsRead, Refusal>
    ensures { records_in result ≡ records bytes.now (records_read width height step_count bytes.now) }
{
    refuse_if(judging::bad_size(MAX_SIDE, width, height), Refusal::BadSize)?;
    refuse_if(MAX_STEPS < step_count, Refusal::TooManySteps)?;
    read::read_steps(width, height, step_count, bytes)
}

// Writes a job whose steps are given as step records.
pub fn write_records(
    width: usize,
    height: usize,
    step_count: usize,
    bytes: &[u8],
    image: &[u8],
    mask: &[u8],
    buffer: &mut [u8],
) -> Result<(), Refusal>
    ensures { written_to result buffer.new
        ≡ write_records (records_read width height step_count bytes.now) width height image.now mask.now buffer.old }
{
    let given = read_records(width, height, step_count, bytes)?;
    job::write_job(width, height, given.steps.as_slice(), image, mask, buffer)
}

// Runs steps given as step records on an image with a mask.
pub fn run_records(
    width: usize,
    height: usize,
    step_count: usize,
    bytes: &[u8],
    image: &mut [u8],
    mask: &[u8],
    queue: &mut [Position],
) -> Result<RunReport, Refusal>
    ensures { MeetsRun
        (run_records (records_read width height step_count bytes.now) width height image.old mask.now queue.old)
        result image.new mask.now queue.new }
{
    let read = read_records(width, height, step_count, bytes)?;
    runner::run_steps(width, height, read.steps.as_slice(), image, mask, queue)
}

// Writes the numbers of reports, three for each.
fn put_reports(from: &[Report], reports: &mut [u32])
    requires { length reports.old ≡ 3 * length from.now }
    ensures { reports.new ≡ numbers_of from.now }
{
    for (k, report) in from.iter().enumerate() {
        reports[3 * k..3 * k + 3].copy_from_slice(&report.numbers());
    }
}

// Writes the counts and the reports of a run. Behind the reports of its steps there are zeros. Returns 01's number.
pub fn put_run(
    reply: Result<RunReport, Refusal>,
    counts: &mut [u32; 2],
    reports: &mut [u32; REPORT_NUMBERS],
) -> u8
    requires { (run_told reply).count ≤ length (run_told reply).reports }
    ensures number { result ≡ verdict_number reply }
    ensures counts { counts.new ≡ (run_told reply).count ∷ (run_told reply).contour_len ∷ [] }
    ensures reports { reports.new ≡ numbers_of (run_told reply).reports }
    ensures room { length reports.new ≡ report_room }
{
    match reply {
        Ok(report) => {
            put_reports(&report.reports, reports);
            *counts = [report.count as u32, report.contour_len];
            0
        }
        Err(refusal) => {
            *counts = [0; 2];
            reports.fill(0);
            u8::from(refusal)
        }
    }
}
