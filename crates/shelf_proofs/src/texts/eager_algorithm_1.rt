pub(crate) const EAGER_ALGORITHM_1: &str = "\
# Algorithm 1 of C. Dwork, N. Lynch and L. Stockmeyer, \"Consensus in the presence of partial
# synchrony\" (Journal of the ACM 35(2), 1988), for n >= 2t + 1 nodes, with one change: each node
# sends in the fourth round of every phase. The program `dls1` sends there only if there is a lock
# to tell of. Here all nodes know all proper values after one whole phase, so that n + 1 phases are
# enough in place of 2n - 1.
#
# The names are those of examples/algorithm-1.rounds, and the fourth round's `send when` is all that
# differs.
#
# Questions, with all inputs:
#     3 nodes, 1 fault, 8 rounds                        agreement, validity and finality yes,
#                                                       whatever is omitted
#     3 nodes, 1 fault, --faults omission --clear 1     termination yes after 15 rounds, no after 14
#     2 nodes, no fault, --clear 1                      termination yes after 11 rounds, no after 10
values 2 period 4

input x
state proper: set = single(x)    # the inputs that the node knows of
state locks: row = zero          # for each value the phase in which it was locked, 0 where it isn't
state lists: row = zero          # at the owner: for each value how many nodes could accept it
state prop: set = empty          # at the owner: the value that it proposes
state got: bool = false          # the node has heard the proposal of this phase
state acks: num = 0
state done: set = empty
decide done

at 1:                            # each node tells the owner which values it could accept
  message (list: set, p: set)
  send when dest = (phase - 1) mod n:
    ({v : has(proper, v) and size({w : w <> v and locks[w] > 0}) = 0}, proper)
  on message:
    lists := [v : if has(list, v) then lists[v] + 1 else lists[v]];
    proper := proper union p;
  end:
    prop := if me = (phase - 1) mod n
            then single(least({v : lists[v] >= n - t})) else empty;
    lists := zero;

at 2:                            # the owner proposes the least that n - t of them accept,
                                 # and who hears it locks it
  message (v: set, p: set)
  send when size(prop) > 0: (prop, proper)
  on message:
    locks := [w : if has(v, w) then phase else locks[w]];
    got := true;
    proper := proper union p;
  end:

at 3:                            # the owner hears of the locks, and t + 1 of them decide
  message (p: set)
  send when got and dest = (phase - 1) mod n: (proper)
  on message:
    acks := acks + 1;
    proper := proper union p;
  end:
    done := if size(done) = 0 and acks >= t + 1 then prop else done;
    acks := 0; got := false; prop := empty;

at 4:                            # a lock gives way to one on another value that isn't older
  message (l: row, p: set)
  send when true: (locks, proper)
  on message:
    locks := [v : if size({w : w <> v and l[w] > 0 and l[w] >= locks[v]}) > 0
                  then 0 else locks[v]];
    proper := proper union p;
  end:
";
