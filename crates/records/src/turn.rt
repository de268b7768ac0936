//! Turn records: who may draw next.
ghost use Rattle.records.specs.Turn.{turn_kind};
ghost use Rattle.std.proofs.Common.{rules};

use crate::Record;

/// Who holds the turn, and its number.
#[derive(Clone, Copy, PartialEq, Eq, Debug)]
pub struct Turn {
    pub holder: u32,
    pub turn: u32,
}

impl Record for Turn {
    ghost kind = { turn_kind };

    ghost idle_follows = { Prim.search rules };

    fn first() -> Turn {
        Turn { holder: 0, turn: 0 }
    }

    fn follows(&self, parent: &Turn) -> bool {
        let next = self.turn as u64 == parent.turn as u64 + 1
            && self.holder <= 15
            && self.holder != parent.holder;
        self == parent || next
    }

    fn idle(&self) -> Turn {
        *self
    }
}
