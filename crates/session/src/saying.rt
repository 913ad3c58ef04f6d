// What is said of an answer.
ghost use Rattle.std.specs.Prelude.{◌≡◌};
ghost use Rattle.session.specs.Saying.{line_for};

use history::Answer;
use script::Answer as Line;

pub fn line_of(answer: Answer) -> Line
    ensures { result ≡ line_for answer }
{
    match answer {
        Answer::Loaded(variant) => Line::Loaded(variant),
        Answer::Ran(executions) => Line::Ran(executions),
        Answer::Branched(child) => Line::Branched(child),
        Answer::Decided(variant) => Line::Decided(variant),
        Answer::Waived(variant) => Line::Waived(variant),
        Answer::Retired(variant) => Line::Retired(variant),
        Answer::Events(count) => Line::Events(count),
        Answer::Entry(message) => Line::Entry(message),
        Answer::Place(place) => Line::Place(place),
        Answer::Next(message) => Line::Next(message),
        Answer::Shares(shared) => Line::Shares(shared),
        Answer::Group(size) => Line::Group(size),
        Answer::Totals {
            executions,
            copies,
            entries,
        } => Line::Totals {
            executions,
            copies,
            entries,
        },
        Answer::NoPermit(variant) => Line::NoPermit(variant),
        Answer::Refused(refusal) => Line::Refused(refusal),
    }
}
