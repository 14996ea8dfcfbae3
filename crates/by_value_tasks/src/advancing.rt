// Whether time advanced, as leave, block and tick tell it.
ghost use Rattle.std.specs.Prelude.{◌≡◌};
ghost use Rattle.by_value_tasks.specs.Advanced.{advance_or};

use ledger::Answer;

// Whether time advanced, where an answer says so; else the number that was lent.
pub fn advance_or(old: u8, answer: Answer) -> u8
    ensures { result ≡ advance_or old answer }
{
    match answer {
        Answer::Advanced(yes) => yes as u8,
        Answer::Refused(_) => old,
        Answer::Done => old,
        Answer::Handle(_) => old,
        Answer::Bytes => old,
        Answer::Counted(_) => old,
        Answer::Lasts(_) => old,
    }
}
