//! Why there is no timetable.
use refusals::TextFault;
use rules::fault::BenchFault;

/// Why there is no timetable: no bench has such a roster, delay or round, or memory ran out.
pub type TimetableFault = TextFault<BenchFault>;
