// The pair question: is there a job between two benches? It reads two chains, of a table that nobody checked.
#![tactic(auto)]

ghost use Rattle.std.specs.Prelude.{[], ◌∷◌, T};
ghost use Rattle.spec_table.specs.Board.{names_fit};
ghost use Rattle.spec_calls.specs.Calls.{outcome, between};
ghost use Rattle.table_size.specs.Sizes.{SizeOf};
ghost use Rattle.board_answers.specs.Answered.{Leaves};

use board_answers::Answer;
use table_refusals::Refusal;
use table_size::Size;

// Reads the chains of two different benches of 1 to B, the second one's up to a number above the first one's match.
fn between_two(t: &[u8], s: Size, first: usize, second: usize) -> Result<Answer, Refusal>
    requires size_of { SizeOf t.now s }
    requires t { T (names_fit s.benches (first ∷ second ∷ [])) }
    ensures { Leaves (outcome (between first second) t.now) result t.now [] }
{
    let one = table_pair::walk(t, s, first, second, None)?;
    let other = table_pair::walk(t, s, second, first, one.job)?;
    let records = one.records + other.records;
    // Takes the second chain's match first: it is below the first chain's.
    match other.job.or(one.job) {
        Some(job) => Ok(Answer::Between(job, records)),
        None => Ok(Answer::NoneBetween(records)),
    }
}

// Answers a job between two benches, the lowest where all chains rise, and how many records were read. The form check
// is not made: only the records that are read are tested, after the benches.
pub fn between(t: &[u8], first: usize, second: usize) -> Result<Answer, Refusal>
    ensures { Leaves (outcome (between first second) t.now) result t.now [] }
{
    let s = Size::of(t)?;
    if !s.has_bench(first) || !s.has_bench(second) || first == second {
        return Err(Refusal::BenchNumber);
    }
    between_two(t, s, first, second)
}
