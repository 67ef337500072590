pub(crate) const ROTATING_COORDINATOR: &str = "\
# The rotating coordinator in rounds: T. Chandra and S. Toueg, \"Unreliable failure detectors for
# reliable distributed systems\" (Journal of the ACM 43(2), 1996), section 6.2. A phase has four
# rounds and a coordinator. Each node sends it its estimate, with the phase in which it took it. The
# coordinator picks one of the newest that a majority sent, and tells all. Who hears of the pick
# takes it as its estimate and says ack, the others say nack. With acks of a majority the
# coordinator decides its pick. Whoever has decided tells all.
#
# `x` is the paper's estimate and `stamp` its ts. A node that doesn't hear from the coordinator in
# round 2 suspects it. The coordinator of phase k is node (k - 1) mod n. Of several newest estimates
# it picks that of the least node. The fourth round is the paper's reliable broadcast: each node
# that has decided tells it in every phase.
#
# Questions, with all inputs:
#     3 and 4 nodes, 8 rounds                       agreement, validity and finality yes, whatever
#                                                   is omitted; termination no
#     3 nodes, 1 fault, --faults crash --clear 1    termination yes after 8 rounds, no after 7
values 2 period 4

input x
state stamp: num = 0             # the phase in which the node took x, 0 for its own input
state count: num = 0             # the messages of this round; in round 3 the acks
state newest: num = 0            # the greatest stamp among them
state pick: set = empty          # at the coordinator: the value that it picked
state done: set = empty
decide done

at 1:
  message (v: num, s: num)
  send when dest = (phase - 1) mod n: (x, stamp)
  on message:
    pick := if count = 0 or s > newest then single(v) else pick;
    newest := if s > newest then s else newest;
    count := count + 1;
  end:
    pick := if count > n div 2 then pick else empty;
    newest := 0; count := 0;

at 2:
  message (v: num)
  send when size(pick) > 0: (least(pick))
  on message:
    x := v;
    stamp := phase;
  end:

at 3:
  message (ack: bool)
  send when dest = (phase - 1) mod n: (stamp = phase)
  on message:
    count := if ack then count + 1 else count;
  end:
    done := if count > n div 2 then pick else done;
    count := 0; pick := empty;

at 4:
  message (d: set)
  send when size(done) > 0: (done)
  on message:
    done := d;
  end:
";
