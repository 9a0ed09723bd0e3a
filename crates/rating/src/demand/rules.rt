ghost use Rattle.std.specs.Prelude.{◌≡◌, ◌<◌, [], ◌∷◌, ◌++◌, length};
ghost use Rattle.rating.specs.Demands.{demanded, sources_of};
ghost use Rattle.rating.specs.Sources.{Sound};

use super::{Demand, Source};
use crate::curve::Curve;
use crate::quotient::rounded_up;
use arrayvec::ArrayVec;

impl Demand {
    // Nothing is asked yet.
    pub(crate) fn new() -> Demand
        ensures own { result.own ≡ 0 }
        ensures sources { sources_of result ≡ [] }
    {
        Demand {
            own: 0,
            sources: ArrayVec::new(),
        }
    }

    // Sets what is asked once; the sources stay.
    pub(crate) fn own_cost(&mut self, cost: u32)
        ensures own { self.new.own ≡ cost }
        ensures sources { sources_of self.new ≡ sources_of self.old }
    {
        self.own = cost;
    }

    // Puts a source behind the others; the own cost stays.
    pub(crate) fn add(&mut self, source: Source)
        requires room { length (sources_of self.old) < 32 }
        requires sound { Sound source }
        ensures own { self.new.own ≡ self.old.own }
        ensures sources { sources_of self.new ≡ sources_of self.old ++ source ∷ [] }
    {
        self.sources.push(source);
    }
}

impl Curve for Demand {
    ghost rising = { demanded };

    // The own cost, and one division for each source.
    fn ask(&self, w: u32) -> u64 {
        let mut sum = self.own as u64;
        for source in self.sources.as_slice() {
            let jobs = rounded_up(w as u64 + source.delay as u64, source.period);
            sum += jobs * source.cost as u64;
        }
        sum
    }
}
