// Findings on a recorded run; what they mean is in specs/.
#![tactic(auto)]

ghost use Rattle.std.specs.Prelude.{◌≡◌, Some};
ghost use Rattle.verdicts.specs.Claims.{KnownRuns};
ghost use Rattle.verdicts.specs.Names.{number as finding-number, name as finding-name};

use std::fmt;

// What can be wrong with a run, in the order in which it is looked for. The first five are shown by two events, the others
// by a closed walk along edges.
#[derive(Clone, Copy, PartialEq, Eq, Debug)]
pub enum Finding {
    // a read of what another transaction never committed
    G1a = 1,
    // a read of a modification that is not its writer's last
    G1b = 2,
    // a read of a version that is older than the reader's snapshot
    SiA = 3,
    // a dependency on what is not in the snapshot
    SiB = 4,
    // a write that was overwritten by a transaction that committed first
    SiC = 5,
    // a cycle of ww edges
    G0 = 6,
    // a cycle of ww and wr edges
    G1c = 7,
    // a cycle of ww, wr and rw edges
    G2 = 8,
    // a cycle of all edges, start edges too
    Rt = 9,
}

impl Finding {
    // The finding's number: the first finding is the one with the smallest.
    pub fn number(self) -> u8
        ensures { result ≡ finding-number self }
    {
        self as u8
    }

    // The finding's name.
    pub fn name(self) -> &'static str
        ensures { result.now ≡ finding-name self }
    {
        match self {
            Finding::G1a => "G1a",
            Finding::G1b => "G1b",
            Finding::SiA => "SI-a",
            Finding::SiB => "SI-b",
            Finding::SiC => "SI-c",
            Finding::G0 => "G0",
            Finding::G1c => "G1c",
            Finding::G2 => "G2",
            Finding::Rt => "RT",
        }
    }
}

// Its name.
impl fmt::Display for Finding {
    ghost output = { λ finding. Some (finding-name finding) };

    fn fmt<W: fmt::Write>(&self, f: &mut fmt::Formatter<W>) -> fmt::Result {
        f.pad(self.name())
    }
}

// The verdicts on the known runs hold of the definitions.
pub fn known_runs_stand()
    ensures { KnownRuns }
{}
