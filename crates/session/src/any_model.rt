// A model of either kind, chosen as the program runs.
ghost use Rattle.std.specs.Prelude.{◌≡◌, true, false, MatchResult};
ghost use Rattle.model.specs.declared.ModelFault.TheVariants.{Limits};
ghost use Rattle.session.specs.Models.{allowed, meaning_of, meaning_for, law_kept};

use collection::Collection;
use model::{Arrival, Model as DayModel, ModelFault, Sends, Words};
use phold::Phold;
use script::ModelSize;

#[derive(Clone, Copy, Drop)]
pub enum AnyModel {
    Collection(Collection),
    Phold(Phold),
}

impl AnyModel {
    // Refuses what is outside the limits of its kind.
    pub fn new(size: ModelSize) -> Result<AnyModel, ModelFault>
        ensures { MatchResult result (λ m. (allowed size ≡ true) × (meaning_of m ≡ meaning_for size)) (λ e. (allowed size ≡ false) × (e ≡ Limits)) }
    {
        match size {
            ModelSize::Collection { farms, tankers } => {
                Ok(AnyModel::Collection(Collection::new(farms, tankers)?))
            }
            ModelSize::Phold {
                places,
                seed,
                replication,
            } => Ok(AnyModel::Phold(Phold::new(places, seed, replication)?)),
        }
    }
}

impl DayModel for AnyModel {
    ghost meaning = { meaning_of };

    ghost law = { law_kept };

    fn places(&self) -> u8 {
        match self {
            AnyModel::Collection(model) => model.places(),
            AnyModel::Phold(model) => model.places(),
        }
    }

    fn start(&self, place: u8) -> Words {
        match self {
            AnyModel::Collection(model) => model.start(place),
            AnyModel::Phold(model) => model.start(place),
        }
    }

    fn react(&self, place: u8, order: u32, words: &mut Words, arrival: Arrival) -> Sends {
        match self {
            AnyModel::Collection(model) => model.react(place, order, words, arrival),
            AnyModel::Phold(model) => model.react(place, order, words, arrival),
        }
    }
}
