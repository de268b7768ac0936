//! Opening and closing.
ghost use Rattle.std.specs.Prelude.{◌≡◌, IfOk, MatchResult};
ghost use Rattle.rules.specs.Opening.{opening};
ghost use Rattle.tables.specs.View.{view, rows_of};
ghost use Rattle.terms.specs.Numbers.{bench_of_terms};
ghost use Rattle.opening.specs.Stages.{SamePlaces};
ghost use Rattle.opening.specs.Plans.{planned};
ghost use Rattle.bench.specs.Answers.{open_outcome};
ghost use Rattle.bench.specs.Runs.{RunBegins};

use crate::closed::ClosedBench;
use crate::live::{Bench, Live};
use crate::unopened::Unopened;
use opening::begin::open_tables;
use opening::plan::Plan;
use orders::Beacon;
use records::Record;
use roster::roster::Roster;
use std::marker::PhantomData;
use tables::lent::Tables;

impl Bench<Live> {
    /// Opens a roster into a live bench on the tables lent, which are filled. All honest seats enter round 1 and propose. A
    /// refusal gives the roster back, and leaves the tables as they were.
    pub fn open<R: Record, B: Beacon>(
        roster: Roster,
        plan: Plan,
        beacon: &B,
        t: &mut Tables<R>,
    ) -> Result<Bench, Unopened>
        ensures is { record { answer = open_outcome result; tables = rows_of t.new } ≡ opening (planned roster plan) (B.ranking beacon.now) R.Record.kind (rows_of t.old) }
        ensures holds { MatchResult result (λ b. (bench_of_terms b ≡ planned roster plan) × (b.clock ≡ 0)) (λ u. u.roster ≡ roster) }
        ensures same { SamePlaces t.new t.old }
        ensures laws { IfOk result (λ b. RunBegins R.Record.kind (bench_of_terms b) (B.ranking beacon.now) (view b t.new)) }
    {
        match open_tables(&roster, plan, beacon, t) {
            Ok(terms) => Ok(Bench {
                terms,
                state: PhantomData,
            }),
            Err(fault) => Err(Unopened { roster, fault }),
        }
    }

    /// Closes the bench: from now on it can only be read.
    pub fn close(self) -> ClosedBench
        ensures { result ≡ self }
    {
        let Bench { terms, .. } = self;
        Bench {
            terms,
            state: PhantomData,
        }
    }
}
