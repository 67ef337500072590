//! The texts of the shelf's algorithms, and what is proved of their programs. Of each text it's
//! proved which program it is, over any number of values.
ghost use Rattle.std.specs.Prelude.{◌≤◌, ℕ};
ghost use Rattle.round_explorer.specs.declared.property.Property.TheVariants.{Agreement};
ghost use Rattle.round_explorer.specs.declared.property.Property.TheVariants.{Final, Safety};
ghost use Rattle.round_explorer.specs.declared.property.Property.TheVariants.{Validity};
ghost use Rattle.round_lang.specs.Limits.{max_values};
ghost use Rattle.round_meaning.specs.Algorithm1.{dls1};
ghost use Rattle.round_proofs.specs.Asking.{AsksAnything, AsksCrashes, AsksMajority};
ghost use Rattle.round_proofs.specs.Explored.{EachRun, HoldsForAll};
ghost use Rattle.round_proofs.specs.FewDecisions.{DecidesFew};
ghost use Rattle.round_proofs.specs.Predicates.{Any, NoSplit};
ghost use Rattle.round_proofs.specs.Safety.{AgreesUnder, ValidUnder};
ghost use Rattle.round_proofs.specs.Terminating.{AsksFewCrashes, AsksFewFaults};
ghost use Rattle.round_proofs.specs.Terminating.{AsksNoOmissions, DecidesBy, IsMinority};
ghost use Rattle.round_proofs.specs.Terminating.{LivingDecide};
ghost use Rattle.round_proofs.specs.Texts.{IsFamilyText};
ghost use Rattle.shelf_proofs.specs.Bounds.{AsksFewOfSome, IsMinorityOfSome, calm_bound};
ghost use Rattle.shelf_proofs.specs.Bounds.{eager_bound, flooding_bound, floodmin_bound};
ghost use Rattle.shelf_proofs.specs.Bounds.{owners_bound, phases_bound, voting_bound};
ghost use Rattle.shelf_proofs.specs.Commits.{CommitsIfAll};
ghost use Rattle.shelf_proofs.specs.EagerAlgorithm1.{eager_algorithm_1_tree};
ghost use Rattle.shelf_proofs.specs.Early.{DecidesEarly};
ghost use Rattle.shelf_proofs.specs.EarlyFlooding.{early_flooding_tree};
ghost use Rattle.shelf_proofs.specs.FloodMin.{floodmin_tree};
ghost use Rattle.shelf_proofs.specs.Flooding.{flooding_tree};
ghost use Rattle.shelf_proofs.specs.HalfVoting.{AsksOddNodes, half_voting_tree};
ghost use Rattle.shelf_proofs.specs.LastVoting.{last_voting_tree};
ghost use Rattle.shelf_proofs.specs.OneThirdRule.{one_third_rule_tree};
ghost use Rattle.shelf_proofs.specs.RotatingCoordinator.{rotating_coordinator_tree};
ghost use Rattle.shelf_proofs.specs.TwoPhaseCommit.{two_phase_commit_tree};
ghost use Rattle.shelf_proofs.specs.UniformVoting.{uniform_voting_tree};

use crate::texts::{
    EAGER_ALGORITHM_1, EARLY_FLOODING, FLOODING, FLOODMIN, HALF_VOTING, LAST_VOTING,
    ONE_THIRD_RULE, ROTATING_COORDINATOR, TWO_PHASE_COMMIT, UNIFORM_VOTING,
};

/// OneThirdRule. It keeps agreement, validity and finality, whoever fails and whatever is omitted.
/// If less than a third of the nodes crash, all others have decided after t + 2 clear rounds.
pub fn one_third_rule() -> &'static str
    ensures text { IsFamilyText result.now 2 one_third_rule_tree }
    ensures agreement { (k : ℕ) → k ≤ max_values → AgreesUnder Any (one_third_rule_tree k) }
    ensures validity { (k : ℕ) → k ≤ max_values → ValidUnder Any (one_third_rule_tree k) }
    ensures safety { (k : ℕ) → k ≤ max_values
        → HoldsForAll (one_third_rule_tree k) AsksAnything Safety }
    ensures termination { (k : ℕ) → k ≤ max_values
        → DecidesBy (one_third_rule_tree k) AsksFewCrashes calm_bound }
{
    ONE_THIRD_RULE
}

/// UniformVoting. It keeps agreement, validity and finality where any two nodes hear some node in
/// common in each round, and so where each node hears more than half of the nodes. Where nodes fail
/// by crashes alone, all others have decided after t + 1 clear rounds and one more whole phase.
pub fn uniform_voting() -> &'static str
    ensures text { IsFamilyText result.now 2 uniform_voting_tree }
    ensures agreement { (k : ℕ) → k ≤ max_values → AgreesUnder NoSplit (uniform_voting_tree k) }
    ensures validity { (k : ℕ) → k ≤ max_values → ValidUnder NoSplit (uniform_voting_tree k) }
    ensures safety { (k : ℕ) → k ≤ max_values
        → HoldsForAll (uniform_voting_tree k) AsksMajority Safety }
    ensures termination { (k : ℕ) → k ≤ max_values
        → DecidesBy (uniform_voting_tree k) AsksNoOmissions voting_bound }
{
    UNIFORM_VOTING
}

/// LastVoting, which is Paxos in rounds. It keeps agreement, validity and finality, whoever fails
/// and whatever is omitted. If less than half of the nodes fail, all others have decided after
/// t + 1 whole phases of clear rounds. All that this asks of these rounds is that the nodes that
/// don't fail hear each other (`living`).
pub fn last_voting() -> &'static str
    ensures text { IsFamilyText result.now 2 last_voting_tree }
    ensures agreement { (k : ℕ) → k ≤ max_values → AgreesUnder Any (last_voting_tree k) }
    ensures validity { (k : ℕ) → k ≤ max_values → ValidUnder Any (last_voting_tree k) }
    ensures safety { (k : ℕ) → k ≤ max_values
        → HoldsForAll (last_voting_tree k) AsksAnything Safety }
    ensures termination { (k : ℕ) → k ≤ max_values
        → DecidesBy (last_voting_tree k) AsksFewFaults phases_bound }
    ensures living { (k : ℕ) → k ≤ max_values
        → LivingDecide (last_voting_tree k) IsMinority phases_bound }
{
    LAST_VOTING
}

/// Flooding for t + 1 rounds. It keeps agreement, validity and finality where up to t nodes crash
/// and no other message is lost, and all others have decided after t + 1 rounds.
pub fn flooding() -> &'static str
    ensures text { IsFamilyText result.now 2 flooding_tree }
    ensures safety { (k : ℕ) → k ≤ max_values → HoldsForAll (flooding_tree k) AsksCrashes Safety }
    ensures termination { (k : ℕ) → k ≤ max_values
        → DecidesBy (flooding_tree k) AsksCrashes flooding_bound }
{
    FLOODING
}

/// FloodMin for k = 2. The nodes decide at most two different values where up to t nodes crash and
/// no other message is lost. Validity and finality hold whoever fails and whatever is omitted, and
/// all have decided after t div 2 + 1 rounds.
pub fn floodmin() -> &'static str
    ensures text { IsFamilyText result.now 3 floodmin_tree }
    ensures few { (k : ℕ) → k ≤ max_values → EachRun (floodmin_tree k) AsksCrashes (DecidesFew 2) }
    ensures validity { (k : ℕ) → k ≤ max_values
        → HoldsForAll (floodmin_tree k) AsksAnything Validity }
    ensures finality { (k : ℕ) → k ≤ max_values
        → HoldsForAll (floodmin_tree k) AsksAnything Final }
    ensures termination { (k : ℕ) → k ≤ max_values
        → DecidesBy (floodmin_tree k) AsksAnything floodmin_bound }
{
    FLOODMIN
}

/// Two-phase commit, with the votes 0 and 1. It keeps agreement and finality, whoever fails and
/// whatever is omitted, and 1 is decided only if all nodes have voted for it.
pub fn two_phase_commit() -> &'static str
    ensures text { IsFamilyText result.now 2 two_phase_commit_tree }
    ensures agreement { HoldsForAll (two_phase_commit_tree 2) AsksAnything Agreement }
    ensures finality { HoldsForAll (two_phase_commit_tree 2) AsksAnything Final }
    ensures commit { EachRun (two_phase_commit_tree 2) AsksAnything CommitsIfAll }
{
    TWO_PHASE_COMMIT
}

/// Algorithm 1, a law: the function does nothing. It keeps agreement, validity and finality if t is
/// less than half of the nodes, whoever fails and whatever is omitted. If less than half of two or
/// more nodes fail, all others have decided before the last round of 2N - 1 whole phases of clear
/// rounds.
pub fn algorithm_1_for_all()
    ensures safety { (k : ℕ) → k ≤ max_values → HoldsForAll (dls1 k) AsksFewFaults Safety }
    ensures termination { (k : ℕ) → k ≤ max_values
        → DecidesBy (dls1 k) AsksFewOfSome owners_bound }
    ensures living { (k : ℕ) → k ≤ max_values
        → LivingDecide (dls1 k) IsMinorityOfSome owners_bound }
{}

/// Algorithm 1 whose nodes send in the fourth round of every phase. It keeps agreement, validity
/// and finality if t is less than half of the nodes, whoever fails and whatever is omitted. All
/// others have then decided before the last round of N + 1 whole phases of clear rounds.
pub fn eager_algorithm_1() -> &'static str
    ensures text { IsFamilyText result.now 2 eager_algorithm_1_tree }
    ensures safety { (k : ℕ) → k ≤ max_values
        → HoldsForAll (eager_algorithm_1_tree k) AsksFewFaults Safety }
    ensures termination { (k : ℕ) → k ≤ max_values
        → DecidesBy (eager_algorithm_1_tree k) AsksFewFaults eager_bound }
    ensures living { (k : ℕ) → k ≤ max_values
        → LivingDecide (eager_algorithm_1_tree k) IsMinority eager_bound }
{
    EAGER_ALGORITHM_1
}

/// The rotating coordinator of Chandra and Toueg in rounds. It keeps agreement, validity and
/// finality, whoever fails and whatever is omitted. If less than half of the nodes fail, all others
/// have decided after t + 1 whole phases of clear rounds.
pub fn rotating_coordinator() -> &'static str
    ensures text { IsFamilyText result.now 2 rotating_coordinator_tree }
    ensures agreement { (k : ℕ) → k ≤ max_values → AgreesUnder Any (rotating_coordinator_tree k) }
    ensures validity { (k : ℕ) → k ≤ max_values → ValidUnder Any (rotating_coordinator_tree k) }
    ensures safety { (k : ℕ) → k ≤ max_values
        → HoldsForAll (rotating_coordinator_tree k) AsksAnything Safety }
    ensures termination { (k : ℕ) → k ≤ max_values
        → DecidesBy (rotating_coordinator_tree k) AsksFewFaults phases_bound }
    ensures living { (k : ℕ) → k ≤ max_values
        → LivingDecide (rotating_coordinator_tree k) IsMinority phases_bound }
{
    ROTATING_COORDINATOR
}

/// Early-deciding flooding. It keeps agreement, validity and finality where up to t nodes crash and
/// no other message is lost. All others have decided after t + 1 rounds, and after f + 2 rounds if
/// f nodes crash (`early`).
pub fn early_flooding() -> &'static str
    ensures text { IsFamilyText result.now 2 early_flooding_tree }
    ensures safety { (k : ℕ) → k ≤ max_values
        → HoldsForAll (early_flooding_tree k) AsksCrashes Safety }
    ensures termination { (k : ℕ) → k ≤ max_values
        → DecidesBy (early_flooding_tree k) AsksCrashes flooding_bound }
    ensures early { (k : ℕ) → k ≤ max_values
        → EachRun (early_flooding_tree k) AsksCrashes DecidesEarly }
{
    EARLY_FLOODING
}

/// LastVoting with a wrong majority: half of the nodes, where their number is even. It keeps
/// agreement, validity and finality for every odd number of nodes, whoever fails and whatever is
/// omitted.
pub fn half_voting() -> &'static str
    ensures text { IsFamilyText result.now 2 half_voting_tree }
    ensures safety { (k : ℕ) → k ≤ max_values
        → HoldsForAll (half_voting_tree k) AsksOddNodes Safety }
{
    HALF_VOTING
}
