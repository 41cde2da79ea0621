// What is decided of a run's edges.
use verdicts::Finding;

// The numbers at the front of a report are the order, or a closed walk of the finding: so many. Either is what was asked for, so
// this is no Result.
#[derive(Clone, Copy, PartialEq, Eq, Debug)]
pub enum Decision {
    Order { count: u16 },
    Walk { finding: Finding, count: u16 },
}
