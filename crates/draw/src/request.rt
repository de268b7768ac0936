//! What the arguments ask for.
ghost use Rattle.std.specs.Prelude.{◌≡◌, ◌<◌, true, length, if◌then◌else◌, OnOk, nat_lt};

use anyhow::anyhow;
use arguments::{clamped, number};
use std::alloc::Global;

/// Which beacon draws the orders.
#[derive(Clone, Copy)]
pub enum Beacons {
    Wheel,
    Shuffle(u64),
}

/// What to draw. Seats too large for their type are the largest that it has, and too many rounds are 0: the library refuses
/// both, in its own order.
#[derive(Drop)]
pub struct Request {
    pub seats: u8,
    pub byzantine: Vec<u8>,
    pub beacon: Beacons,
    pub rounds: u16,
}

// A number of rounds; 0, which no beacon covers, where there are too many. No absence: the report refuses both alike.
fn round_count(count: u64) -> u16
    ensures { result ≡ (if nat_lt 65535 count then 0 else count) }
{
    u16::try_from(count).unwrap_or(0)
}

fn needed(word: &str) -> anyhow::Result<u64> {
    number(word).ok_or_else(|| anyhow!("not a number: {word}"))
}

// The seats of a list such as 0,3, or of the word none.
fn seats(alloc: Global, word: &str) -> anyhow::Result<Vec<u8>> {
    if word == "none" {
        return Ok(Vec::new(alloc));
    }
    word.split(',')
        .map(|part| needed(part).map(clamped::<u8>))
        .try_collect(alloc)
}

fn parts(
    alloc: Global,
    n: &str,
    byzantine: &str,
    beacon: Beacons,
    rounds: &str,
) -> anyhow::Result<Request> {
    Ok(Request {
        seats: clamped(needed(n)?),
        byzantine: seats(alloc, byzantine)?,
        beacon,
        rounds: round_count(needed(rounds)?),
    })
}

/// No arguments, or the word that asks for help.
pub fn asks_for_help(words: &[String]) -> bool
    ensures { length words.now ≡ 0 → result ≡ true }
{
    match words {
        [] => true,
        [first, ..] => first.as_str() == "--help",
    }
}

/// What the arguments ask for: four words or five. An error says which of them is not understood.
pub fn read_request(alloc: Global, words: &[String]) -> anyhow::Result<Request>
    ensures { OnOk result ((3 < length words.now) × (length words.now < 6)) }
{
    match words {
        [n, byzantine, wheel, rounds] if wheel.as_str() == "wheel" => {
            parts(
                alloc,
                n.as_str(),
                byzantine.as_str(),
                Beacons::Wheel,
                rounds.as_str(),
            )
        }
        [n, byzantine, shuffle, seed, rounds] if shuffle.as_str() == "shuffle" => {
            let seed = needed(seed.as_str())?;
            parts(
                alloc,
                n.as_str(),
                byzantine.as_str(),
                Beacons::Shuffle(seed),
                rounds.as_str(),
            )
        }
        _ => Err(anyhow!("arguments not understood: call draw with none for help")),
    }
}
