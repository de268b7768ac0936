//! The search for a message that would be overdue at the next tick.
#![tactic(auto)]

ghost use Rattle.std.specs.Prelude.{◌≡◌};
ghost use Rattle.rules.specs.Overdue.{overdue};
ghost use Rattle.tables.specs.View.{view, setup_of};

mod blocks;
mod certificates;
mod clock;
mod votes;

use crate::blocks::{block_late, lacks_block};
use crate::certificates::{certificate_late, lacks_certificate};
use crate::votes::{lacks_vote, vote_late};
use records::Record;
use tables::lent::Tables;
use terms::terms::Terms;

/// Whether some message of an honest seat would be overdue at the next tick: it is late, and some honest seat lacks part
/// of it. Blocks are searched first, then votes, then certificates.
#[tactic(auto, using(tables::proofs::Loops::any_none, tables::proofs::Loops::any_more))]
pub fn some_overdue<R: Record>(terms: Terms, t: &Tables<R>) -> bool
    ensures { result ≡ overdue (setup_of terms t.now) (view terms t.now) }
{
    let blocks = terms.block_rows() as u32;
    // Labelled loops and no chain, as is the rule for this search: it is one block, which the first message found overdue leaves
    // with the answer.
    'search: {
        'made: for block in 0..blocks {
            if block_late(terms, t, block) {
                'holders: for seat in 0..terms.n {
                    if lacks_block(terms, t, block, seat) {
                        break 'search true;
                    }
                }
            }
        }
        'voted: for block in 0..blocks {
            'voters: for voter in 0..terms.n {
                if vote_late(terms, t, block, voter) {
                    'hearers: for seat in 0..terms.n {
                        if lacks_vote(terms, t, block, voter, seat) {
                            break 'search true;
                        }
                    }
                }
            }
        }
        'senders: for sender in 0..terms.n {
            'left: for past in 0..terms.rounds {
                if certificate_late(terms, t, sender, past) {
                    'receivers: for seat in 0..terms.n {
                        if lacks_certificate(terms, t, sender, past, seat) {
                            break 'search true;
                        }
                    }
                }
            }
        }
        false
    }
}
