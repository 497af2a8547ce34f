// The sheet's lines: how many they are, and each written on a lent page.
#![tactic(auto)]

ghost use Rattle.std.specs.Prelude.{◌≡◌, [], ◌+◌, ◌≤◌, ◌<◌, length};
ghost use Rattle.spec_sheet.specs.Sheet.{bench_head, more_head, line_count};
ghost use Rattle.sheet_fields.specs.Page.{with_text};
ghost use Rattle.sheet_lines.specs.WrittenLines.{
  cell_text,
  job_after,
  Listed,
  LineWritten,
  PageRoom,
  BenchWritten,
  LoadsOf,
  LengthOf,
  RoomForAll,
  SheetWritten,
};

use table_size::{PerBench, PerJob, Size};

// Counts the characters of a line, the line feed included.
const LINE: usize = 69;

// Counts the columns of a job.
const CELL: usize = 5;

// Writes a job in its columns, or blanks for 0; gives the job after it.
// Kept: 0 for no job, the table's format: `next` holds the words that end a chain so.
fn write_cell(page: &mut [u8], at: usize, j: usize, next: &PerJob<u16>) -> usize
    requires listed { Listed next.now j }
    requires at_in_bounds { at + 5 ≤ length page.old }
    ensures page_after { page.new ≡ with_text page.old at (cell_text j) }
    ensures value { result ≡ job_after next.now j }
{
    if j == 0 {
        sheet_fields::write_blanks::<CELL>(page, at);
        return 0;
    }
    sheet_fields::write_number(page, at, j);
    usize::from(next[j])
}

// Writes a line from its 9th column on: twelve jobs of a list, blanks where it ends before, and the line feed; gives
// the job after them.
fn write_jobs(page: &mut [u8], at: usize, first: usize, next: &PerJob<u16>) -> usize
    requires listed { Listed next.now first }
    requires at_in_bounds { at + 61 ≤ length page.old }
    ensures { LineWritten next.now page.old page.new [] at first result }
{
    let mut j = first;
    for cell in 0..12 {
        j = write_cell(page, at + CELL * cell, j, next);
    }
    page[at + 60] = b'\n';
    j
}

// Writes the first line of bench x: its number, its load, and up to twelve jobs from `first` on; gives the job after
// them.
fn write_first(
    page: &mut [u8],
    at: usize,
    x: usize,
    load: usize,
    first: usize,
    next: &PerJob<u16>,
) -> usize
    requires x_bound { x < 1000 }
    requires load_bound { load < 10000 }
    requires listed { Listed next.now first }
    requires at_in_bounds { at + 69 ≤ length page.old }
    ensures { LineWritten next.now page.old page.new (bench_head x load) at
        first result }
{
    sheet_fields::write_bench_number(page, at, x);
    sheet_fields::write_number(page, at + 3, load);
    write_jobs(page, at + 8, first, next)
}

// Writes a line that goes on with a bench's jobs: 8 blanks, and up to twelve jobs from j on; gives the job after them.
fn write_more(page: &mut [u8], at: usize, j: usize, next: &PerJob<u16>) -> usize
    requires listed { Listed next.now j }
    requires at_in_bounds { at + 69 ≤ length page.old }
    ensures { LineWritten next.now page.old page.new more_head at j result }
{
    sheet_fields::write_blanks::<8>(page, at);
    write_jobs(page, at + 8, j, next)
}

// Writes the lines of bench x with this load, whose jobs begin with `first`; gives the place after them.
fn write_bench(
    page: &mut [u8],
    at: usize,
    x: usize,
    load: usize,
    first: usize,
    next: &PerJob<u16>,
) -> usize
    requires x_bound { x < 1000 }
    requires load_bound { load < 10000 }
    requires page_room { PageRoom next.now page.old at first }
    ensures { BenchWritten next.now page.old page.new (bench_head x load) at
        first result }
{
    let mut j = write_first(page, at, x, load, first, next);
    let mut end = at + LINE;
    while j != 0 {
        j = write_more(page, end, j, next);
        end += LINE;
    }
    end
}

// Writes all lines.
pub fn write(
    s: Size,
    loads: &PerBench<u16>,
    head: &PerBench<u16>,
    next: &PerJob<u16>,
    page: &mut [u8],
)
    requires { RoomForAll s loads.now head.now next.now page.old }
    ensures { SheetWritten s loads.now head.now next.now page.old
        page.new }
{
    let mut at = 0;
    for x in 1..s.benches() + 1 {
        at = write_bench(
            page,
            at,
            x,
            usize::from(loads[x]),
            usize::from(head[x]),
            next,
        );
    }
}

// Counts the lines of a bench.
fn line_count(load: usize) -> usize
    requires { load < 65536 }
    ensures { result ≡ line_count load }
{
    load.div_ceil(12).max(1)
}

// Computes how long the sheet is.
pub fn sheet_length(s: Size, loads: &PerBench<u16>) -> usize
    requires { LoadsOf s loads.now }
    ensures { LengthOf s loads.now result }
{
    let mut lines = 0;
    for &load in &loads[1..s.benches() + 1] {
        lines += line_count(usize::from(load));
    }
    LINE * lines
}
