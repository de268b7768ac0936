//! Notarisations that a seat holds.
ghost use Rattle.std.specs.Prelude.{◌≡◌, nat_le, count_ones};
ghost use Rattle.rules.specs.Holding.{holds_notarisation, lowest_notarised};
ghost use Rattle.tables.specs.View.{view, setup_of};

use records::Record;
use tables::lent::Tables;
use terms::terms::Terms;

/// Whether these signatures notarise a block: whether they are a quorum.
pub fn is_quorum(terms: Terms, signers: u16) -> bool
    ensures { result ≡ nat_le terms.quorum (count_ones signers) }
{
    terms.quorum as u32 <= signers.count_ones()
}

/// Whether a seat holds a notarisation of a block: it has received a quorum of signatures on it.
pub fn holds_notarisation<R: Record>(terms: Terms, t: &Tables<R>, seat: u8, block: u32) -> bool
    ensures { result ≡ holds_notarisation (setup_of terms t.now) (view terms t.now) seat block }
{
    is_quorum(terms, t.signers_at(terms, seat, block))
}

/// The lowest-numbered block of a round whose notarisation a seat holds.
pub fn lowest_notarised<R: Record>(terms: Terms, t: &Tables<R>, seat: u8, round: u16) -> Option<u32>
    ensures { result ≡ lowest_notarised (setup_of terms t.now) (view terms t.now) seat round }
{
    terms
        .blocks_of(round)
        .find(|&block| holds_notarisation(terms, t, seat, block))
}
