// A day run to its end, and a closure that is told of each event.
ghost use Rattle.std.specs.Prelude.{List};
ghost use Rattle.event.specs.declared.Start.{Start};
ghost use Rattle.day.specs.Alone.{Alone, Order};
ghost use Rattle.day.specs.Held.{SameSetting, day_of, the_day};
ghost use Rattle.day.specs.Runs.{Later, Outcome};
ghost use Rattle.day.specs.Tidy.{Tidy};

use crate::fault::Stop;
use crate::lone::LoneDay;
use crate::place::Ran;
use model::Model;

impl<M: Model> LoneDay<M> {
    // Runs the day to its last event, and tells each, with the model. The first event that is refused ends it, and so does the first that cannot be told.
    pub fn run<E, F: FnMut(&M, &Ran) -> Result<(), E>>(
        &mut self,
        mut tell: F,
    ) -> Result<(), Stop<E>>
        requires { F.IsAlwaysCallable tell }
        ensures told { Outcome F.step (M.meaning self.old.model) self.old tell result (day_of (M.meaning self.old.model) self.new) }
        ensures later { Later (M.meaning self.old.model) self.old.waiting.end (the_day M.meaning self.old) (day_of (M.meaning self.old.model) self.new) }
        ensures same { SameSetting self.old self.new }
        ensures alone { (starts : List Start) (orders : List Order) → Alone (M.meaning self.old.model) self.old.waiting.end starts orders (the_day M.meaning self.old) → Alone (M.meaning self.old.model) self.old.waiting.end starts orders (day_of (M.meaning self.old.model) self.new) }
        ensures tidy { Tidy (M.meaning self.old.model) (the_day M.meaning self.old) → Tidy (M.meaning self.old.model) (day_of (M.meaning self.old.model) self.new) }
    {
        while let Some(ran) = self.event()? {
            tell(&self.model, &ran).map_err(Stop::Untold)?;
        }
        Ok(())
    }
}
