// Whoever makes the calls of a history.
ghost use Rattle.std.specs.Prelude.{Option};
ghost use Rattle.history.specs.declared.answer.Answer.{Answer};
ghost use Rattle.history.specs.declared.call.Call.{Call};

use crate::answer::Answer;
use crate::call::Call;

// It gives one call after the other, and is told each answer before it gives the next.
pub trait Caller {
    // it may give this call, or none, and is then so
    ghost gives: { Self → Option Call → Self → Type 0 };

    // told this answer to that call it is then so
    ghost hears: { Self → Call → Answer → Self → Type 0 };

    // the next call, or nothing where the history is over
    fn next(&mut self) -> Option<Call>
        ensures { gives self.old result self.new };

    fn tell(&mut self, call: Call, answer: Answer)
        ensures { hears self.old call answer self.new };
}
