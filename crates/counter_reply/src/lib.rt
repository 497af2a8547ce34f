// The counter program's reply to a line: its command is performed, or the line is refused.
#![tactic(auto)]

ghost use Rattle.counter_commands.specs.Read.{command_of};
ghost use Rattle.counter_printing.specs.Wrote.{HasRoom};
ghost use Rattle.counter_answer_lines.specs.AnswerLines.{line_most};
ghost use Rattle.counter_state.specs.State.{Room, counter_of};
ghost use Rattle.counter_perform.specs.Performed.{Performs};
ghost use Rattle.counter_reply.specs.Replies.{RepliesTo};

use counter_commands::Command;
use counter_printing::Output;
use counter_state::{Counter, TableBytes};
use table_refusals::Refusal;

// Makes a command's call and prints its line.
fn perform(counter: &mut Counter, command: Command, bytes: &mut TableBytes, out: &mut Output<'_>)
    requires room { Room counter.old bytes.old }
    requires out_room { HasRoom out.old line_most }
    ensures { Performs (command_of command) (counter_of counter.old bytes.old) bytes.new
        out.old out.new counter.new }
{
    match command {
        Command::SetTable(benches, jobs) => counter_perform::set_table(
            counter, benches, jobs, bytes, out,
        ),
        Command::TakeIn(job, first, second) => counter_perform::take_in(
            counter, job, first, second, bytes, out,
        ),
        Command::CloseJob(job) => counter_perform::close_job(counter, job, bytes, out),
        Command::AskTightSet(height) => counter_perform::ask_tight_set(counter, height, bytes, out),
        Command::AskHeaviest => counter_perform::ask_heaviest(counter, bytes, out),
    }
}

// Replies to a line, given without its line feed.
pub fn to_line(counter: &mut Counter, line: &[u8], bytes: &mut TableBytes, out: &mut Output<'_>)
    requires room { Room counter.old bytes.old }
    requires out_room { HasRoom out.old line_most }
    ensures { RepliesTo line.now (counter_of counter.old bytes.old) bytes.new
        out.old out.new counter.new }
{
    match counter_commands::read(line) {
        Some(command) => perform(counter, command, bytes, out),
        None => counter_answer_lines::refusal(out, Refusal::Unreadable.number() as usize),
    }
}
