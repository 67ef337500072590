//! Algorithms that are proved for every number of nodes.
use std::fmt;

/// An algorithm of the library or of `examples/shelf` that is proved for every number of nodes.
#[derive(Clone, Copy, PartialEq, Eq, Debug)]
pub enum Algorithm {
    Algorithm1,
    EagerAlgorithm1,
    OneThirdRule,
    UniformVoting,
    LastVoting,
    RotatingCoordinator,
    Flooding,
    EarlyFlooding,
    FloodMin,
    TwoPhaseCommit,
}

impl Algorithm {
    /// The algorithm's name.
    fn name(self) -> &'static str {
        match self {
            Algorithm::Algorithm1 => "Algorithm 1",
            Algorithm::EagerAlgorithm1 => "eager Algorithm 1",
            Algorithm::OneThirdRule => "OneThirdRule",
            Algorithm::UniformVoting => "UniformVoting",
            Algorithm::LastVoting => "LastVoting",
            Algorithm::RotatingCoordinator => "rotating coordinator",
            Algorithm::Flooding => "flooding",
            Algorithm::EarlyFlooding => "early-deciding flooding",
            Algorithm::FloodMin => "FloodMin",
            Algorithm::TwoPhaseCommit => "two-phase commit",
        }
    }

    /// What is proved, in words.
    fn proved(self) -> &'static str {
        match self {
            Algorithm::FloodMin => "validity, final, and at most two decisions",
            Algorithm::TwoPhaseCommit => "agreement, final, and 1 only if all inputs are 1",
            _ => "agreement, validity and final",
        }
    }

    /// In which runs that is proved, in words; nothing if it's of all.
    fn runs(self) -> &'static str {
        match self {
            Algorithm::Algorithm1 | Algorithm::EagerAlgorithm1 => {
                " where t is less than half of the nodes"
            }
            Algorithm::UniformVoting => " where each node hears more than half of the nodes",
            Algorithm::Flooding | Algorithm::EarlyFlooding | Algorithm::FloodMin => {
                " where up to t nodes crash and no other message is lost"
            }
            _ => "",
        }
    }
}

/// One sentence: what is proved, in which runs, and of which algorithm.
impl fmt::Display for Algorithm {
    fn fmt<W: fmt::Write>(&self, f: &mut fmt::Formatter<W>) -> fmt::Result {
        let (proved, runs, name) = (self.proved(), self.runs(), self.name());
        write!(
            f,
            "proved for every number of nodes and rounds{runs}: {proved} ({name})"
        )
    }
}
