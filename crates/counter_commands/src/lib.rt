// A line of the counter program as a command.
#![tactic(auto)]

ghost use Rattle.std.specs.Prelude.{◌≡◌, ◌<◌, length, MatchOption, Some};
ghost use Rattle.counter_commands.specs.Read.{reading_of, ReadingOf, digit_value, behind, NoFields, FieldRead};
ghost use Rattle.counter_commands.specs.Read.{few, with_one, taken, given};

// "At most 40 bytes before the line feed".
const LONGEST_LINE: usize = 40;

// "Numbers of 0 to 65,535".
const LARGEST_NUMBER: usize = 65535;

// A line's command, with its numbers.
#[derive(Clone, Copy)]
pub enum Command {
    // Benches and jobs.
    SetTable(usize, usize),
    // The job, its first bench and its second.
    TakeIn(usize, usize, usize),
    CloseJob(usize),
    // The height.
    AskTightSet(usize),
    AskHeaviest,
}

// A line's numbers. No command takes more than three.
#[derive(Clone, Copy)]
enum Numbers {
    None,
    One(usize),
    Two(usize, usize),
    Three(usize, usize, usize),
}

impl Numbers {
    // Adds one more number, unless there are three already.
    fn and(self, n: usize) -> Option<Numbers>
        ensures { taken result ≡ with_one (taken (Some self)) n }
    {
        match self {
            Numbers::None => Some(Numbers::One(n)),
            Numbers::One(a) => Some(Numbers::Two(a, n)),
            Numbers::Two(a, b) => Some(Numbers::Three(a, b, n)),
            Numbers::Three(..) => None,
        }
    }
}

// Gives a digit's value.
fn digit_value(byte: u8) -> Option<usize>
    ensures { result ≡ digit_value byte }
{
    match byte {
        b'0'..=b'9' => Some(usize::from(byte - b'0')),
        _ => None,
    }
}

// Reads a space and the number after it, and gives what is behind them too.
fn read_field(fields: &[u8]) -> Option<(usize, &[u8])>
    requires { 0 < length fields.now }
    ensures { MatchOption result (NoFields fields.now)
        (λ field. FieldRead fields.now field.0 field.1.now) }
{
    let [before, first, rest @ ..] = fields else {
        return None;
    };
    if *before != b' ' {
        return None;
    }
    let mut n = digit_value(*first)?;
    for (i, &byte) in rest.iter().enumerate() {
        if byte == b' ' {
            return Some((n, &rest[i..]));
        }
        let digit = digit_value(byte)?;
        if n == 0 {
            return None;
        }
        n = 10 * n + digit;
        if LARGEST_NUMBER < n {
            return None;
        }
    }
    Some((n, &[]))
}

// Reads the fields behind the first byte.
fn read_numbers(mut fields: &[u8]) -> Option<Numbers>
    ensures { taken result ≡ few (behind fields.entry.now) }
{
    let mut numbers = Numbers::None;
    while !fields.is_empty() {
        let (n, rest) = read_field(fields)?;
        numbers = numbers.and(n)?;
        fields = rest;
    }
    Some(numbers)
}

// Finds the command of a letter and its numbers.
fn command_for(letter: u8, numbers: Numbers) -> Option<Command>
    ensures { reading_of result ≡ given letter (taken (Some numbers)) }
{
    match (letter, numbers) {
        (b'B', Numbers::Two(benches, jobs)) => Some(Command::SetTable(benches, jobs)),
        (b'A', Numbers::Three(job, first, second)) => Some(Command::TakeIn(job, first, second)),
        (b'D', Numbers::One(job)) => Some(Command::CloseJob(job)),
        (b'S', Numbers::One(height)) => Some(Command::AskTightSet(height)),
        (b'H', Numbers::None) => Some(Command::AskHeaviest),
        _ => None,
    }
}

// Reads a line, without its line feed.
pub fn read(line: &[u8]) -> Option<Command>
    ensures { ReadingOf line.now result }
{
    if LONGEST_LINE < line.len() {
        return None;
    }
    let (&letter, fields) = line.split_first()?;
    command_for(letter, read_numbers(fields)?)
}
