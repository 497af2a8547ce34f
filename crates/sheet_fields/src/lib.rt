// Numbers in columns, written on a page; the bytes around them stay as they were.
#![tactic(auto)]

ghost use Rattle.std.specs.Prelude.{◌≡◌, ◌+◌, ◌≤◌, ◌<◌, length, replicate};
ghost use Rattle.spec_text.specs.Numbers.{space};
ghost use Rattle.spec_sheet.specs.Sheet.{field};
ghost use Rattle.sheet_fields.specs.Page.{digit_of, with_text};

// Gives the last digit of n, a blank for 0.
fn last_digit(n: u32) -> u8
    ensures { result ≡ digit_of n }
{
    if n == 0 {
        return b' ';
    }
    b'0' + (n % 10) as u8
}

// Writes a bench's number in 3 columns.
// Kept: 3 and 5 columns are two straight lines of stores; one function with the columns as a parameter is a loop that
// carries the quotient, and the first digit, the digits after it and the last are three cases there too.
pub fn write_bench_number(page: &mut [u8], at: usize, x: usize)
    requires x_bound { x < 1000 }
    requires at_in_bounds { at + 3 ≤ length page.old }
    ensures { page.new ≡ with_text page.old at (field 3 x) }
{
    let ones = x as u32;
    let tens = ones / 10;
    page[at] = last_digit(tens / 10);
    page[at + 1] = last_digit(tens);
    page[at + 2] = b'0' + (ones % 10) as u8;
}

// Writes a number in 5 columns. A job or a load has at most four digits, so that the first column is blank.
pub fn write_number(page: &mut [u8], at: usize, n: usize)
    requires n_bound { n < 10000 }
    requires at_in_bounds { at + 5 ≤ length page.old }
    ensures { page.new ≡ with_text page.old at (field 5 n) }
{
    let ones = n as u32;
    let tens = ones / 10;
    let hundreds = tens / 10;
    page[at] = b' ';
    page[at + 1] = last_digit(hundreds / 10);
    page[at + 2] = last_digit(hundreds);
    page[at + 3] = last_digit(tens);
    page[at + 4] = b'0' + (ones % 10) as u8;
}

// Writes blanks in so many columns, where no number stands.
pub fn write_blanks<const COLUMNS: usize>(page: &mut [u8], at: usize)
    requires { at + COLUMNS ≤ length page.old }
    ensures { page.new ≡ with_text page.old at (replicate COLUMNS space) }
{
    page[at..at + COLUMNS].fill(b' ');
}
