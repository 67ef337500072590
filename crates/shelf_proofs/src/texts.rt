//! The texts of examples/shelf, byte for byte.

mod eager_algorithm_1;
mod early_flooding;
mod half_voting;
mod rotating_coordinator;

pub(crate) use eager_algorithm_1::EAGER_ALGORITHM_1;
pub(crate) use early_flooding::EARLY_FLOODING;
pub(crate) use half_voting::HALF_VOTING;
pub(crate) use rotating_coordinator::ROTATING_COORDINATOR;

pub(crate) const ONE_THIRD_RULE: &str = "\
# OneThirdRule: B. Charron-Bost and A. Schiper, \"The Heard-Of model\" (Distributed Computing 22(1),
# 2009). Every node sends its value. One that hears more than 2n/3 nodes takes the value that all
# but n/3 of them have, if there is one, and else the least that it heard; and it decides a value
# that more than 2n/3 nodes have.
#
# `x` is the paper's x, `heard` the size of the set HO, and `done` the decision. A node that decides
# again takes the new decision in place of the old one, so that finality says something.
#
# Questions, with all inputs:
#     3 and 4 nodes, 8 rounds                       agreement, validity and finality yes, whatever
#                                                   is omitted; termination no
#     4 nodes, 1 fault, --faults crash --clear 4    termination yes after 8 rounds, no after 5
#     3 nodes, 1 fault, --faults crash --clear 4    termination no: it takes all 3 nodes
values 2 period 1

input x
state heard: num = 0             # the messages of this round
state votes: row = zero          # for each value the number of them that have it
state done: set = empty
decide done

at 1:
  message (v: num)
  send when true: (x)
  on message:
    heard := heard + 1;
    votes := [w : if w = v then votes[w] + 1 else votes[w]];
  end:
    x := if heard + heard + heard <= n + n then x
         else if size({w : votes[w] + n div 3 >= heard}) > 0
         then least({w : votes[w] + n div 3 >= heard})
         else least({w : votes[w] > 0});
    done := if size({w : votes[w] + votes[w] + votes[w] > n + n}) > 0
            then {w : votes[w] + votes[w] + votes[w] > n + n} else done;
    heard := 0;
    votes := zero;
";

pub(crate) const UNIFORM_VOTING: &str = "\
# UniformVoting: B. Charron-Bost and A. Schiper, \"The Heard-Of model\" (Distributed Computing \
22(1),
# 2009). In the first round of a phase every node sends its value and takes the least that it hears;
# if all that it hears are the same, that one is its vote. In the second it sends value and vote,
# and takes a vote that it hears, or else the least value; it decides a vote that all messages have.
#
# `x` is the paper's x. `vote` is a set, empty for the paper's `?`. A node that hears nothing keeps
# what it has. The algorithm asks that any two nodes hear some node in common in each round; it's so
# where each hears a majority.
#
# Questions, with all inputs:
#     3 nodes, 8 rounds                       agreement no in round 2, final no in round 4
#     3 nodes, 8 rounds, --hears 2            agreement, validity and finality yes
#     4 nodes, 8 rounds, --hears 3            the same; with --hears 2 agreement no in round 2
#     3 nodes, 8 rounds, --hears 2 --clear 5  termination yes, also with 1 fault and --faults crash
values 2 period 2

input x
state vote: set = empty          # the node's vote, empty while it has none
state votes: set = empty         # the votes of this round's messages
state open: set = empty          # the values of its messages that have no vote
state done: set = empty
decide done

at 1:
  message (v: num)
  send when true: (x)
  on message:
    open := open union single(v);
  end:
    vote := if size(open) = 1 then open else empty;
    x := if size(open) > 0 then least(open) else x;
    open := empty;

at 2:
  message (v: num, w: set)
  send when true: (x, vote)
  on message:
    votes := votes union w;
    open := if size(w) = 0 then open union single(v) else open;
  end:
    done := if size(votes) = 1 and size(open) = 0 then votes else done;
    x := if size(votes) > 0 then least(votes)
         else if size(open) > 0 then least(open) else x;
    vote := empty; votes := empty; open := empty;
";

pub(crate) const LAST_VOTING: &str = "\
# LastVoting, which is Paxos in rounds: B. Charron-Bost and A. Schiper, \"The Heard-Of model\"
# (Distributed Computing 22(1), 2009), after L. Lamport, \"The part-time parliament\" (1998). A \
phase
# has four rounds and a coordinator. The coordinator hears values with their time stamps from a
# majority and proposes one of those with the newest stamp; who hears the proposal takes it as its
# value; and once a majority has, the coordinator tells all to decide it.
#
# `x`, `vote` and `ready` are the paper's x, vote and ready, and `stamp` is its ts. `vote` is a set,
# empty where the paper's commit is false. The coordinator of phase k is node (k - 1) mod n. Of
# several values with the newest stamp it takes the one of the least node.
#
# Questions, with all inputs:
#     3 and 4 nodes, 8 rounds                       agreement, validity and finality yes, whatever
#                                                   is omitted; termination no
#     3 nodes, 1 fault, --faults crash --clear 5    termination yes after 16 rounds, and after 12;
#                                                   no after 8
values 2 period 4

input x
state stamp: num = 0             # the phase in which the node took x, 0 for its own input
state count: num = 0             # the messages of this round
state newest: num = 0            # the greatest stamp among them
state vote: set = empty          # at the coordinator: the value that it proposes
state ready: bool = false        # at the coordinator: a majority took it
state done: set = empty
decide done

at 1:
  message (v: num, s: num)
  send when dest = (phase - 1) mod n: (x, stamp)
  on message:
    vote := if count = 0 or s > newest then single(v) else vote;
    newest := if s > newest then s else newest;
    count := count + 1;
  end:
    vote := if count > n div 2 then vote else empty;
    newest := 0; count := 0;

at 2:
  message (v: num)
  send when size(vote) > 0: (least(vote))
  on message:
    x := v;
    stamp := phase;
  end:

at 3:
  message ()
  send when stamp = phase and dest = (phase - 1) mod n: ()
  on message:
    count := count + 1;
  end:
    ready := count > n div 2;
    count := 0;

at 4:
  message (v: num)
  send when ready: (least(vote))
  on message:
    done := single(v);
  end:
    vote := empty; ready := false;
";

pub(crate) const FLOODING: &str = "\
# Flooding for t + 1 rounds: FloodSet of N. Lynch, \"Distributed Algorithms\" (1996), section 6.2.1.
# In each of t + 1 rounds every node sends the set of all inputs that it knows of. Then it decides
# the set's only member, or a default value where there are several.
#
# `seen` is the book's W. The default value is 0 here, so that with two values a node decides the
# least of its set.
#
# Questions, with 4 nodes, 2 faults, all inputs and 3 rounds, of agreement, validity, finality and
# termination:
#     --faults crash --clear 1       all yes: that's what the algorithm is for
#     --faults omission --clear 1    agreement no in round 3: a faulty node that nobody hears
#                                    decides its own input
#     --faults crash                 agreement no in round 3, since any message may be lost
values 2 period 1

input x
state seen: set = single(x)
state chosen: set = empty
decide chosen

at 1:
  message (s: set)
  send when round <= t + 1: (seen)
  on message:
    seen := seen union s;
  end:
    chosen := if round >= t + 1 then seen else empty;
";

pub(crate) const FLOODMIN: &str = "\
# FloodMin for k-set agreement with k = 2: N. Lynch, \"Distributed Algorithms\" (1996), section \
7.1.2.
# The nodes may decide k different values, and no more. In each of t div k + 1 rounds every node
# sends the least value that it knows of, and then it decides that one.
#
# `lowest` is the book's min-val, as a set of one value. How many values are decided in all can't be
# read from one node's state. So each node tells its decision in the rounds after it, and `told` has
# the decisions that a node was told. In a run of one round more, an invariant says how many.
#
# Questions, with 4 nodes, 2 faults, all inputs, 3 rounds and `--clear 1`:
#     --faults crash --always 'size(told) <= 2'       always yes, agreement no in round 2
#     --faults crash --always 'size(told) <= 1'       always no in round 3: two values are decided
#     --faults omission --always 'size(told) <= 2'    always no in round 3
values 3 period 1

input x
state lowest: set = single(x)    # the least value that the node knows of
state chosen: set = empty
state told: set = empty          # the decisions that the node was told of
decide chosen

at 1:
  message (v: set, c: set)
  send when true: (lowest, chosen)
  on message:
    lowest := if least(v) < least(lowest) then v else lowest;
    told := told union c;
  end:
    chosen := if round = t div 2 + 1 then lowest else chosen;
";

pub(crate) const TWO_PHASE_COMMIT: &str = "\
# Two-phase commit: J. Gray, \"Notes on data base operating systems\" (1978); N. Lynch, \
\"Distributed
# Algorithms\" (1996), section 7.3.2. Each node has a vote, 1 to commit and 0 to abort, and tells it
# to node 0, the coordinator. If every node told a 1, the coordinator decides to commit, and else to
# abort, and it tells all. A node that votes 0 aborts at once. One that votes 1 waits for the
# coordinator: if that crashes, the node is blocked.
#
# `x` is the vote, `verdict` what the coordinator decided, and `done` the decision. Votes are told
# in the first round alone, and the verdict again in each second round.
#
# Questions, with 3 nodes, 1 fault, all inputs and 8 rounds, and beside the others
# `--always 'not has(done, 1) or x = 1'`: a node that commits has voted for it.
#     (nothing more)              agreement, finality and always yes, whatever is omitted
#     --clear 1                   all yes, termination too
#     --faults crash --clear 1    termination no: the coordinator crashes; and validity no, since it
#                                 aborts where all vote to commit and it misses a vote
values 2 period 2

input x
state count: num = 0             # at the coordinator: how many nodes said that they can commit
state verdict: set = empty       # at the coordinator: what is to be done
state done: set = empty
decide done

at 1:
  message (v: num)
  send when phase = 1 and dest = 0: (x)
  on message:
    count := count + v;
  end:
    verdict := if me = 0 and phase = 1 then single(if count = n then 1 else 0) else verdict;
    done := if me = 0 then verdict else if x = 0 then single(0) else done;
    count := 0;

at 2:
  message (v: set)
  send when me = 0: (verdict)
  on message:
    done := v;
  end:
";
