//! Worked cases: proved of the definitions in one table, and run on the code.
#![tactic(auto)]

ghost use Rattle.std.specs.Prelude.{◌≡◌};
ghost use Rattle.worked_cases.specs.Table.{All, cases, how_many, LargeVolumeNeverFollows};

/// How many worked cases there are; each of them holds.
pub fn worked_cases() -> u8
    ensures count { result ≡ how_many cases }
    ensures each_holds { All cases }
    ensures large_volume { LargeVolumeNeverFollows }
{
    11
}

#[cfg(test)]
mod tests {
    use drawing::fault::DrawFault;
    use drawing::report::{print_or_refuse, refusal_line, report};
    use drawing::seating::seat_all;
    use orders::wheel::Wheel;
    use orders::{Beacon, ranks_of, seats_by_rank};
    use records::Record;
    use records::heat::Heat;
    use records::turn::Turn;
    use shuffle::Shuffle;
    use shuffle::splitmix::SplitMix64;
    use std::alloc::AllocError;
    use std::test::Fail;

    #[test]
    fn splitmix_vectors(rt: HostRuntime) {
        let mut g = SplitMix64::new(1234567);
        assert_eq!(rt; g.draw(), 6457827717110365317);
        assert_eq!(rt; g.draw(), 3203168211198807973);
        assert_eq!(rt; g.draw(), 9817491932198370423);
        assert_eq!(rt; g.draw(), 4593380528125082431);
        assert_eq!(rt; g.draw(), 16408922859458223821);
        let mut z = SplitMix64::new(0);
        assert_eq!(rt; z.draw(), 16294208416658607535);
    }

    #[test]
    fn orders_of_rounds(rt: HostRuntime) {
        assert_eq!(rt;
            ranks_of(&Shuffle::new(0, 16), 1),
            [7, 15, 0, 12, 14, 9, 3, 4, 13, 11, 2, 1, 8, 5, 6, 10]
        );
        assert_eq!(rt;
            ranks_of(&Shuffle::new(1234567, 7), 3),
            [0, 6, 3, 5, 2, 4, 1, 0, 0, 0, 0, 0, 0, 0, 0, 0]
        );
        assert_eq!(rt;
            ranks_of(&Shuffle::new(u64::MAX, 16), 65535),
            [11, 3, 1, 7, 4, 2, 5, 10, 9, 8, 14, 12, 15, 13, 0, 6]
        );
        assert_eq!(rt; ranks_of(&Shuffle::new(5, 17), 1), [0; 16]);
        assert_eq!(rt;
            seats_by_rank(&Wheel::new(3), 1),
            Some([1, 2, 0, 0, 0, 0, 0, 0, 0, 0, 0, 0, 0, 0, 0, 0])
        );
    }

    #[test]
    fn outside_the_orders(rt: HostRuntime) {
        assert_eq!(rt; Shuffle::new(5, 3).rank_of(0, 0), 16);
        assert_eq!(rt; Shuffle::new(5, 3).rank_of(1, 3), 16);
        assert_eq!(rt; Wheel::new(3).rank_of(4, 0), 2);
        assert_eq!(rt; seats_by_rank(&Wheel::new(3), 0), None);
    }

    #[test]
    fn totals_and_turns_never_wrap(rt: HostRuntime) {
        let full = Heat {
            volume: 0,
            calorific: 0,
            total: u64::MAX,
        };
        assert!(rt;
            !Heat {
                volume: 1,
                calorific: 1,
                total: 0,
            }
            .follows(&full)
        );
        assert!(rt; full.idle().follows(&full));
        let last = Turn {
            holder: 2,
            turn: u32::MAX,
        };
        assert!(rt; !Turn { holder: 3, turn: 0 }.follows(&last));
        assert!(rt; last.follows(&last));
    }

    fn draw_line(
        rt: &HostRuntime,
        n: u8,
        byzantine: &[u8],
        rounds: u16,
    ) -> Result<String, AllocError> {
        match seat_all(n, byzantine) {
            Ok(roster) => report(rt.alloc(), &roster, &Wheel::new(n), rounds).or_else(
                |fault| refusal_line(rt.alloc(), fault),
            ),
            Err(fault) => refusal_line(rt.alloc(), DrawFault::Roster(fault)),
        }
    }

    #[test]
    fn drawings_and_refusals(rt: HostRuntime) -> Result<(), Fail> {
        assert!(rt;
            draw_line(&rt, 17, &[], 1)?.as_str() == "refused 1: a roster has 1 to 16 seats\n"
        );
        assert!(rt; draw_line(&rt, 3, &[3], 1)?.as_str() == "refused 2: there is no such seat\n");
        assert!(rt;
            draw_line(&rt, 5, &[1, 1], 1)?.as_str() == "refused 3: the seat is already Byzantine\n"
        );
        assert!(rt;
            draw_line(&rt, 3, &[0, 1], 1)?.as_str()
                == "refused 4: half of the seats would be Byzantine\n"
        );
        assert!(rt;
            draw_line(&rt, 3, &[0], 0)?.as_str() == "refused 6: the beacon has no such rounds\n"
        );
        assert!(rt;
            draw_line(&rt, 1, &[], 1)?.as_str()
                == "seats 1, Byzantine 0 of at most 0, majority 1\nround 1 leader 0 honest order 0\nrounds 1, led by honest seats 1\n"
        );
        Ok(())
    }

    #[test]
    fn only_a_printed_text_is_success(rt: HostRuntime) -> Result<(), Fail> {
        let roster = seat_all(1, &[])?;
        let text = report(rt.alloc(), &roster, &Wheel::new(1), 1);
        assert!(rt; print_or_refuse(&rt, rt.alloc(), text, "nothing").is_ok());
        let refused = Err(DrawFault::Rounds);
        assert!(rt; print_or_refuse(&rt, rt.alloc(), refused, "nothing").is_err());
        Ok(())
    }
}
