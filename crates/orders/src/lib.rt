//! Beacons: which seat leads each round, and who comes after it.
#![tactic(auto)]

ghost use Rattle.std.specs.Prelude.{◌≡◌, ℕ, ◌<◌, ◌≤◌, true, slice_index};
ghost use Rattle.orders.specs.Ranking.{Order, Ranking, Lawful, covers, rank_answer};
ghost use Rattle.orders.specs.Rows.{order_row, seats_answer};

pub mod search;
pub mod seats;
pub mod wheel;

/// The answer for a seat or a round that a beacon does not cover. A number and no `None`: the rules say 16 there.
pub const NO_RANK: u8 = 16;

/// A beacon gives, for one seat count and each round from 1 to its last, an order of the seats.
/// `ranking` is its meaning; asking changes nothing, and the answer is always the meaning's.
pub trait Beacon {
    ghost ranking: { Self → Ranking };

    /// The seat count that the orders are for.
    fn seat_count(&self) -> u8
        ensures { result ≡ (ranking self.now).seats };

    /// The last round that has an order.
    fn last_round(&self) -> u16
        ensures { result ≡ (ranking self.now).rounds };

    /// The rank of a seat in a round, both covered; elsewhere any number.
    fn covered_rank(&self, round: u16, seat: u8) -> u8
        ensures { covers (ranking self.now) round ≡ true → seat < (ranking self.now).seats → result ≡ (ranking self.now).rank round seat };

    /// The rank of a seat in a round: 0 leads. 16 outside the rounds or the seats.
    // Not `final`: so it can be asked of a `&dyn Beacon` as well.
    fn rank_of(&self, round: u16, seat: u8) -> u8
        ensures { result ≡ rank_answer (ranking self.now) round seat }
    {
        if (1..=self.last_round()).contains(&round) && seat < self.seat_count() {
            self.covered_rank(round, seat)
        } else {
            NO_RANK
        }
    }

    ghost lawful: { (b : Self) → Lawful (ranking b) };
}

/// A round's order by value: the rank of each seat, 0 past the last seat.
// Sixteen places for any seat count: the row that a caller lends for a round has as many, and no heap is needed.
pub fn ranks_of<B: Beacon>(beacon: &B, round: u16) -> [u8; 16]
    ensures row { result ≡ order_row (B.ranking beacon.now) round }
    ensures order { 1 ≤ round → round ≤ (B.ranking beacon.now).rounds → Order (B.ranking beacon.now).seats (λ s. slice_index result s) }
{
    let n = beacon.seat_count();
    let mut ranks = [0u8; 16];
    // By index, over the seats alone: `array::from_fn` goes over all sixteen places, which took up to twice the time.
    for seat in 0..n {
        ranks[seat as usize] = beacon.rank_of(round, seat);
    }
    ranks
}

/// A round's seats in the order of their ranks, the leader first, 0 past the last seat; None outside the rounds.
pub fn seats_by_rank<B: Beacon>(beacon: &B, round: u16) -> Option<[u8; 16]>
    ensures { result ≡ seats_answer (B.ranking beacon.now) round }
{
    if round == 0 || round > beacon.last_round() {
        return None;
    }
    let n = beacon.seat_count();
    let ranks = ranks_of(beacon, round);
    let mut seats = [0u8; 16];
    // By index: each seat goes to the place of its rank, and the ranks come in no order.
    for seat in 0..n {
        seats[ranks[seat as usize] as usize] = seat;
    }
    Some(seats)
}
