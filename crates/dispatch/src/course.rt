// The day of a plan on a study in all its variants, step by step.
ghost use Rattle.std.specs.Prelude.{◌≡◌, [], ◌∷◌, ◌++◌, IfOk, MatchOption, OnOk, None, Some, length};
ghost use Rattle.collection.specs.Choice.{order_of};
ghost use Rattle.report.specs.Deeds.{deed_of};
ghost use Rattle.sheet.specs.declared.standing.Cause.TheVariants.{Order};
ghost use Rattle.dispatch.specs.Leasts.{least_of};
ghost use Rattle.dispatch.specs.Trials.{BranchedFor};

use crate::studied::{self, DayStudy, PLANNED};
use collection::{Collection, DAIRY};
use day::Ran;
use dayfile::{Choice, Plan};
use event::{Key, Message};
use report::{Deed, Line};
use sheet::{Attempt, Cause, Parting, Trial};
use std::alloc::{AllocError, Global};
use study::fault::StudyFault;

// The events that a study has room for.
pub(crate) const EVENTS: usize = 2048;

// A live variant, and what it tries.
#[derive(Clone, Copy)]
pub(crate) struct Variant {
    pub number: u8,
    pub trial: Option<Trial>,
}

// An event that a variant has run: how many that makes, and what it was.
#[derive(Clone, Copy)]
pub(crate) struct Event {
    pub number: usize,
    pub ran: Ran,
}

// What a step was.
#[derive(Clone, Copy)]
pub(crate) enum Step {
    // nothing waited in any variant
    Over,
    // the day as planned ran this event
    Planned(Event),
    // only other variants ran
    Tried,
}

// A variant before a step: the events that it has run, what it runs next, and from which variant the place is taken over that the step works.
#[derive(Clone, Copy)]
pub(crate) struct Poised {
    number: u8,
    events: usize,
    next: Option<Ran>,
    giver: Option<u8>,
}

// The study, its variants by their numbers, and what has parted their places.
#[derive(Drop)]
pub(crate) struct Course {
    pub model: Collection,
    pub study: DayStudy,
    pub variants: Vec<Variant>,
    pub partings: Vec<Parting>,
}

// What happened in an event, and when.
pub(crate) fn line(model: &Collection, ran: &Ran) -> Line
    ensures time { result.time ≡ ran.now.message.time }
    ensures deed { result.deed ≡ deed_of model.now.farms model.now.tankers ran.now }
{
    Line {
        time: ran.message.time,
        deed: Deed::of(model, ran),
    }
}

// The smallest key so far, and that of one more message, if there is one: the one that comes first.
fn least_with(least: Option<Key>, next: Option<Message>) -> Option<Key>
    ensures { result ≡ least_of least next }
{
    let Some(message) = next else {
        return least;
    };
    match least {
        Some(key) if !message.key().precedes(&key) => Some(key),
        _ => Some(message.key()),
    }
}

impl Course {
    ghost use Rattle.dispatch.specs.Courses.{CausedBy, IsEventOf, IsPoised, Loaded, NeitherRan, Noted, NotedFirst, NothingWaits, PartsBy, PoisesFirst, RanNothing, SameDay, Stepped, Was, WorksNext};

    // The day of a plan, with its one variant.
    pub(crate) fn new(heap: Global, model: Collection, plan: &Plan) -> Result<Course, StudyFault>
        ensures { IfOk result (Loaded model plan.now) }
    {
        let study = studied::load(heap, model, plan)?;
        let mut variants = Vec::new(heap);
        let planned = Variant {
            number: PLANNED,
            trial: None,
        };
        variants.push(planned).map_err(AllocError::from)?;
        Ok(Course {
            model,
            study,
            variants,
            partings: Vec::new(heap),
        })
    }

    // Branches a variant that tries the choice.
    pub(crate) fn attempt(&mut self, choice: &Choice) -> Result<Attempt, StudyFault>
        ensures branched { IfOk result (λ a. BranchedFor self.old.study self.new.study (order_of choice.now.preference) a.variant) }
        ensures told { IfOk result (λ a. a.trial ≡ record { preference = choice.now.preference; events = choice.now.events }) }
        ensures listed { IfOk result (λ a. self.new.variants.items ≡ self.old.variants.items ++ record { number = a.variant; trial = Some a.trial } ∷ []) }
        ensures parted { IfOk result (λ a. self.new.partings.items ≡ self.old.partings.items ++ record { variant = a.variant; place = 0; cause = Order } ∷ []) }
    {
        let number = studied::branch(&mut self.study, choice.preference)?;
        let trial = Trial {
            preference: choice.preference,
            events: choice.events,
        };
        let variant = Variant {
            number,
            trial: Some(trial),
        };
        self.variants.push(variant).map_err(AllocError::from)?;
        let parting = Parting {
            variant: number,
            place: DAIRY,
            cause: Cause::Order,
        };
        self.partings.push(parting).map_err(AllocError::from)?;
        Ok(Attempt {
            variant: number,
            trial,
        })
    }

    // The place that the next step works, if anything waits: the receiver of the smallest key.
    fn next_place(&self) -> Result<Option<u8>, StudyFault>
        ensures { IfOk result (λ place. MatchOption place (NothingWaits self.now.study self.now.variants.items (length self.now.variants.items)) (WorksNext self.now.study self.now.variants.items)) }
    {
        let mut least: Option<Key> = None;
        for variant in self.variants.iter() {
            least = least_with(least, self.study.next(variant.number)?);
        }
        Ok(least.map(|key| key.receiver))
    }

    // A variant before a step that works this place.
    fn poise(&self, variant: u8, place: u8) -> Result<Poised, StudyFault>
        ensures { IfOk result (IsPoised self.now.study self.now.model variant place) }
    {
        Ok(Poised {
            number: variant,
            events: self.study.events(variant)?,
            next: studied::next_event(&self.study, &self.model, variant)?,
            giver: studied::giver(&self.study, variant, place)?,
        })
    }

    // All variants, by their numbers.
    fn poise_all(&self, heap: Global, place: u8) -> Result<Vec<Poised>, StudyFault>
        ensures { IfOk result (λ all. PoisesFirst self.now.study self.now.model self.now.variants.items place (length self.now.variants.items) all.items) }
    {
        let mut all = Vec::new(heap);
        for variant in self.variants.iter() {
            all.push(self.poise(variant.number, place)?)
                .map_err(AllocError::from)?;
        }
        Ok(all)
    }

    // The event that a variant has run in a step, if it ran.
    fn event(&self, before: &Poised) -> Result<Option<Event>, StudyFault>
        ensures { IfOk result (λ event. MatchOption event (RanNothing self.now.study before.now) (IsEventOf self.now.study before.now)) }
    {
        let number = self.study.events(before.number)?;
        if number == before.events {
            return Ok(None);
        }
        Ok(before.next.map(|ran| Event { number, ran }))
    }

    // The event of a step as a cause, if the variant ran.
    fn cause(&self, before: &Poised) -> Result<Option<Cause>, StudyFault>
        ensures { IfOk result (λ cause. MatchOption cause (RanNothing self.now.study before.now) (PartsBy self.now.study self.now.model before.now)) }
    {
        let event = self.event(before)?;
        Ok(event.map(|event| Cause::Event {
            variant: before.number,
            number: event.number,
            line: line(&self.model, &event.ran),
        }))
    }

    // The event that has parted the place of a variant: its own, or else that of the variant with which the place was shared.
    fn parting_event(
        &self,
        all: &[Poised],
        before: &Poised,
        giver: u8,
    ) -> Result<Option<Cause>, StudyFault>
        ensures { IfOk result (λ cause. MatchOption cause (NeitherRan self.now.study all.now before.now giver) (CausedBy self.now.study self.now.model all.now before.now giver)) }
    {
        if let Some(cause) = self.cause(before)? {
            return Ok(Some(cause));
        }
        match all.get(usize::from(giver)) {
            Some(other) => self.cause(other),
            None => Ok(None),
        }
    }

    // Notes what has parted the place of a variant, if the step has.
    fn note(&mut self, all: &[Poised], before: &Poised, place: u8) -> Result<(), StudyFault>
        ensures same { SameDay self.old self.new }
        ensures noted { OnOk result (Noted self.old.study self.old.model all.now before.now place self.old.partings.items self.new.partings.items) }
    {
        let Some(giver) = before.giver else {
            return Ok(());
        };
        if studied::giver(&self.study, before.number, place)?.is_some() {
            return Ok(());
        }
        if let Some(cause) = self.parting_event(all, before, giver)? {
            let parting = Parting {
                variant: before.number,
                place,
                cause,
            };
            self.partings.push(parting).map_err(AllocError::from)?;
        }
        Ok(())
    }

    // Notes what has parted places in a step.
    fn note_all(&mut self, all: &[Poised], place: u8) -> Result<(), StudyFault>
        ensures same { SameDay self.old self.new }
        ensures noted { OnOk result (NotedFirst self.old.study self.old.model all.now place (length all.now) self.old.partings.items self.new.partings.items) }
    {
        for before in all {
            self.note(all, before, place)?;
        }
        Ok(())
    }

    // The messages with the smallest key are run in every variant that has one.
    pub(crate) fn step(&mut self, heap: Global) -> Result<Step, StudyFault>
        ensures stepped { Stepped self.old.study self.new.study }
        ensures told { IfOk result (Was self.old self.new) }
    {
        let Some(place) = self.next_place()? else {
            return Ok(Step::Over);
        };
        let all = self.poise_all(heap, place)?;
        self.study.step()?;
        self.note_all(&all, place)?;
        let Some(planned) = all.first() else {
            return Ok(Step::Tried);
        };
        Ok(match self.event(planned)? {
            Some(event) => Step::Planned(event),
            None => Step::Tried,
        })
    }
}
