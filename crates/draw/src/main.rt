//! draw: who leads each round of a roster, and how often that seat is honest.
#![tactic(auto)]

mod request;

use drawing::fault::DrawFault;
use drawing::report::{print_or_refuse, report};
use drawing::seating::seat_all;
use orders::wheel::Wheel;
use request::{Beacons, Request, asks_for_help, read_request};
use shuffle::Shuffle;
use std::alloc::Global;
use std::env;

const USAGE: &str = "\
draw: draws the rounds of a roster and says who leads each

usage: draw SEATS BYZANTINE wheel ROUNDS
       draw SEATS BYZANTINE shuffle SEED ROUNDS

SEATS      how many seats there are, 1 to 16
BYZANTINE  the Byzantine seats, as 0,3 (numbered from 0), or none
wheel      seats lead in turn
shuffle    each round's order is drawn by lot from SEED
ROUNDS     how many rounds to draw, 1 to 65535

example: draw 4 2 shuffle 7 6
";

// The drawing that was asked for.
fn drawn(alloc: Global, request: &Request) -> Result<String, DrawFault> {
    let roster = seat_all(request.seats, request.byzantine.as_slice())?;
    // Two calls, since the beacons are two types.
    match request.beacon {
        Beacons::Wheel => report(alloc, &roster, &Wheel::new(request.seats), request.rounds),
        Beacons::Shuffle(seed) => report(
            alloc,
            &roster,
            &Shuffle::new(seed, request.seats),
            request.rounds,
        ),
    }
}

fn main(rt: HostRuntime) -> anyhow::Result<()> {
    let words: Vec<String> = env::args(&rt)?.skip(1).collect(rt.alloc())?;
    if asks_for_help(words.as_slice()) {
        rt.print(USAGE)?;
        return Ok(());
    }
    let request = read_request(rt.alloc(), words.as_slice())?;
    let text = drawn(rt.alloc(), &request);
    print_or_refuse(&rt, rt.alloc(), text, "nothing was drawn")
}
