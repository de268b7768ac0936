//! Heat records: gas drawn, and the heat it adds up to.
ghost use Rattle.records.specs.Heat.{heat_kind};
ghost use Rattle.std.proofs.Common.{rules};

use crate::Record;

/// A reading: volume in m³, calorific value in kJ per m³, running total in kJ.
#[derive(Clone, Copy, PartialEq, Eq, Debug)]
pub struct Heat {
    pub volume: u32,
    pub calorific: u32,
    pub total: u64,
}

impl Record for Heat {
    ghost kind = { heat_kind };

    ghost idle_follows = { Prim.search rules };

    fn first() -> Heat {
        Heat {
            volume: 0,
            calorific: 0,
            total: 0,
        }
    }

    fn follows(&self, parent: &Heat) -> bool {
        let added = self.volume as u64 * self.calorific as u64;
        self.volume <= 1_000_000
            && self.calorific <= 60_000
            && parent.total.checked_add(added) == Some(self.total)
    }

    fn idle(&self) -> Heat {
        Heat {
            volume: 0,
            calorific: 0,
            total: self.total,
        }
    }
}
