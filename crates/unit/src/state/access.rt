ghost use Rattle.std.specs.Prelude.{◌≡◌};
ghost use Rattle.unit.specs.Meaning.{unit_meaning};
ghost use Rattle.unit.specs.UnitMachine.{unit_at_first};

use super::{Sensing, Unit};
use crate::model::Model;
use crate::sense::CLEAR;

impl<M: Model> Unit<M> {
    // A device of this model, with sense 00 and no sense command open.
    pub fn new(model: M) -> Unit<M>
        ensures first { unit_meaning M.Model.core M.Model.state result ≡ unit_at_first M.Model.core (M.Model.state model) }
        ensures holds { result.model ≡ model }
    {
        Unit {
            model,
            sense: CLEAR,
            sensing: Sensing::Closed,
        }
    }

    // The sense byte.
    pub fn sense(&self) -> u8
        ensures { result ≡ (unit_meaning M.Model.core M.Model.state self.now).sense }
    {
        self.sense
    }

    // The model, to look at.
    pub fn model(&self) -> &M
        ensures { result.now ≡ self.now.model }
    {
        &self.model
    }
}
