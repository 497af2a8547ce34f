// How the counter program performs each command: the call, and its line.
#![tactic(auto)]

ghost use Rattle.spec_counter.specs.Counter.{take_in, close_job, set_table, ask_tight_set, ask_heaviest};
ghost use Rattle.counter_printing.specs.Wrote.{HasRoom};
ghost use Rattle.counter_answer_lines.specs.AnswerLines.{line_most};
ghost use Rattle.counter_state.specs.State.{Room, counter_of};
ghost use Rattle.counter_perform.specs.Performed.{Performs};

use board_answers::Values;
use board_tally::Tally;
use counter_answer_lines::Told;
use counter_printing::Output;
use counter_state::{Counter, TableBytes};
use table_size::Size;

// Performs "B benches jobs"; "a refused B keeps the old table".
pub fn set_table(
    counter: &mut Counter,
    benches: usize,
    jobs: usize,
    bytes: &mut TableBytes,
    out: &mut Output<'_>,
)
    requires room { Room counter.old bytes.old }
    requires out_room { HasRoom out.old line_most }
    ensures { Performs (set_table benches jobs) (counter_of counter.old bytes.old) bytes.new
        out.old out.new counter.new }
{
    match Size::new(benches, jobs) {
        Err(why) => counter_answer_lines::refusal(out, why.number() as usize),
        Ok(size) => {
            let length = size.bytes();
            let answer = board_changes::blank(&mut bytes[..length], benches, jobs);
            *counter = Counter {
                length,
                tally: Tally::new(),
            };
            let told = Told {
                letter: b'B',
                repeated: Values::of(&[benches, jobs]),
                answer,
            };
            counter_answer_lines::answer(out, told);
        }
    }
}

// Performs "A job and two benches", and prints "A job, holder, bench that rose, moved", then the moved jobs.
pub fn take_in(
    counter: &mut Counter,
    job: usize,
    first: usize,
    second: usize,
    bytes: &mut TableBytes,
    out: &mut Output<'_>,
)
    requires room { Room counter.old bytes.old }
    requires out_room { HasRoom out.old line_most }
    ensures { Performs (take_in job first second) (counter_of counter.old bytes.old) bytes.new
        out.old out.new counter.new }
{
    let mut list = counter_state::zero_list();
    let answer = board_changes::arrival(
        &mut bytes[..counter.length],
        job,
        first,
        second,
        &mut list,
    );
    *counter = counter.noted(answer);
    let told = Told {
        letter: b'A',
        repeated: Values::of(&[job]),
        answer,
    };
    counter_answer_lines::listing(out, told, 3, &list);
}

// Performs "D job", and prints "D job, bench that fell, moved", then the moved jobs.
pub fn close_job(counter: &mut Counter, job: usize, bytes: &mut TableBytes, out: &mut Output<'_>)
    requires room { Room counter.old bytes.old }
    requires out_room { HasRoom out.old line_most }
    ensures { Performs (close_job job) (counter_of counter.old bytes.old) bytes.new out.old
        out.new counter.new }
{
    let mut list = counter_state::zero_list();
    let answer = board_changes::closing(&mut bytes[..counter.length], job, &mut list);
    *counter = counter.noted(answer);
    let told = Told {
        letter: b'D',
        repeated: Values::of(&[job]),
        answer,
    };
    counter_answer_lines::listing(out, told, 2, &list);
}

// Performs "S height", and prints "S height, benches, inside jobs, then the benches".
pub fn ask_tight_set(counter: &Counter, height: usize, bytes: &TableBytes, out: &mut Output<'_>)
    requires room { Room counter.now bytes.now }
    requires out_room { HasRoom out.old line_most }
    ensures { Performs (ask_tight_set height) (counter_of counter.now bytes.now) bytes.now
        out.old out.new counter.now }
{
    let mut list = counter_state::zero_list();
    let answer = board_questions::tight_set(&bytes[..counter.length], height, &mut list);
    let told = Told {
        letter: b'S',
        repeated: Values::of(&[height]),
        answer,
    };
    counter_answer_lines::listing(out, told, 1, &list);
}

// Performs "H", and prints "H heaviest".
pub fn ask_heaviest(counter: &Counter, bytes: &TableBytes, out: &mut Output<'_>)
    requires room { Room counter.now bytes.now }
    requires out_room { HasRoom out.old line_most }
    ensures { Performs ask_heaviest (counter_of counter.now bytes.now) bytes.now out.old
        out.new counter.now }
{
    let answer = board_questions::heaviest(&bytes[..counter.length]);
    let told = Told {
        letter: b'H',
        repeated: Values::of(&[]),
        answer,
    };
    counter_answer_lines::answer(out, told);
}
