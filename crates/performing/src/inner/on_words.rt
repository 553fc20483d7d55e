// The contour of an image on words of 64 pixels: the scan, the check of a contour that stands row by row, and the
// contour handed on. The buffers `rows` and `entries` are lent as room to work in.
ghost use Rattle.std.specs.Prelude.{◌≡◌, true, ◌↔◌, ◌*◌, ◌≤◌, length, take};
ghost use Rattle.neighbours.specs.Crop.{Sized, Ready, Band, Extended};
ghost use Rattle.neighbours.specs.Contour.{contour};
ghost use Rattle.neighbours.specs.BlankRows.{blank_row_count};
ghost use Rattle.model.specs.Words.{row_words, packed_words, unpacked_words};
ghost use Rattle.words.specs.Frame.{frame_room, max_entries};
ghost use Rattle.words.specs.Room.{front_rows, HeldRows};
ghost use Rattle.performing.specs.Inner.{Workable, Scanned, HandsOn};

use engine::inner::queue;
use model::ScanReport;
use neighbours::Position;
use packing::Rows;
use packing::inner::band::band_of;
use words::Found;
use words::inner::room;

// The scan (01: sweep) of an image whose band is known: writes the contour, row by row, to the queue's front. What
// stands behind may be anything. Rows without an object pixel are passed over: those outside the band before anything
// is packed, those in it by a look along their words. Tells how many positions there are, and how many rows were passed
// over.
fn scan_band(
    width: usize,
    height: usize,
    image: &[u8],
    band: Rows,
    queue: &mut [Position],
    rows: &mut [u64],
    entries: &mut [u64],
) -> Found
    requires workable { Workable width height image.now queue.old rows.old entries.old }
    requires band { Band width height image.now band.top band.end }
    ensures listed { Extended queue.old 0 (contour width height image.now) queue.new result.len }
    ensures counted { result.blank ≡ blank_row_count width height image.now }
{
    let tall = band.end - band.top;
    let base = band.top * width;
    let part = &image[base..band.end * width];
    room::pack(width, tall, part, rows);
    let found = room::list_contour(width, tall, rows, entries, base, queue);
    Found {
        len: found.len,
        blank: found.blank + (height - tall),
    }
}

// The scan of an image whose band is not known.
pub fn scan(
    width: usize,
    height: usize,
    image: &[u8],
    queue: &mut [Position],
    rows: &mut [u64],
    entries: &mut [u64],
) -> Found
    requires { Workable width height image.now queue.old rows.old entries.old }
    ensures listed { Extended queue.old 0 (contour width height image.now) queue.new result.len }
    ensures counted { result.blank ≡ blank_row_count width height image.now }
{
    let band = band_of(width, height, image);
    scan_band(width, height, image, band, queue, rows, entries)
}

// The scan by itself, with zeros behind the contour. The caller knows the band.
pub fn scan_only(
    width: usize,
    height: usize,
    image: &[u8],
    band: Rows,
    queue: &mut [Position],
    rows: &mut [u64],
    entries: &mut [u64],
) -> ScanReport
    requires workable { Workable width height image.now queue.old rows.old entries.old }
    requires band { Band width height image.now band.top band.end }
    ensures { Scanned width height image.now queue.old result queue.new }
{
    let found = scan_band(width, height, image, band, queue, rows, entries);
    queue::clear_behind(queue, found.len);
    ScanReport {
        contour_len: found.len as u32,
        blank_rows: found.blank as u32,
    }
}

// The same in a room of `N` entries for the words and as many for their frame. Not inlined: a caller would hold
// the rooms of both sizes in one stack frame, the arrays of the small one far apart.
#[inline(never)]
pub fn scan_with<const N: usize>(
    width: usize,
    height: usize,
    image: &[u8],
    band: Rows,
    queue: &mut [Position],
) -> ScanReport
    requires ready { Ready width height image.now queue.old }
    requires band { Band width height image.now band.top band.end }
    requires room { frame_room (row_words width) height ≤ N }
    requires few { N ≤ max_entries }
    ensures { Scanned width height image.now queue.old result queue.new }
{
    let mut rows = [0u64; N];
    let mut entries = [0u64; N];
    scan_only(width, height, image, band, queue, &mut rows, &mut entries)
}

// Whether the `n` positions at the queue's front are the contour, row by row: as a scan leaves it. The image is packed
// at the front of `rows` then.
pub fn is_scanned(
    width: usize,
    height: usize,
    image: &[u8],
    queue: &[Position],
    n: usize,
    rows: &mut [u64],
    entries: &mut [u64],
) -> bool
    requires workable { Workable width height image.now queue.now rows.old entries.old }
    requires n_in_bounds { n ≤ length queue.now }
    ensures answer { ((result ≡ true) ↔ (take n queue.now ≡ contour width height image.now)) }
    ensures packed { front_rows width height rows.new ≡ packed_words width height image.now }
{
    room::pack(width, height, image, rows);
    room::is_contour_listed(width, height, rows, entries, queue, n)
}

// Unpacks the rows into the image and hands its contour on: at the queue's front, row by row, with zeros behind. The
// rows are gone then. Returns the contour's length.
pub fn hand_on(
    width: usize,
    height: usize,
    image: &mut [u8],
    queue: &mut [Position],
    rows: &mut [u64],
    entries: &mut [u64],
) -> u32
    requires held_rows { HeldRows width height rows.old entries.old }
    requires sized { Sized width height image.old }
    requires height_in_bounds { width * height ≤ length queue.old }
    ensures { HandsOn width height (unpacked_words width height (front_rows width height rows.old))
        queue.old image.new queue.new result }
{
    room::unpack(width, height, rows, image);
    let listed = room::list_contour(width, height, rows, entries, 0, queue);
    queue::clear_behind(queue, listed.len);
    listed.len as u32
}
