pub(crate) const EARLY_FLOODING: &str = "\
# Early-deciding flooding, for uniform agreement: M. Raynal, \"Consensus in synchronous systems: a
# concise guided tour\" (Pacific Rim International Symposium on Dependable Computing, 2002). In each
# round every node sends the set of all inputs that it knows of. It decides by round t + 1; and if
# f nodes crash, by round f + 2: a node that has heard as many nodes in two rounds in a row decides
# in the next one.
#
# `seen` is the set. Where nodes crash and no other message is lost, to hear as many is to hear the
# same ones. Then no node that hasn't crashed knows of more; and in the next round all others hear
# it. To decide at once would be a round too early: a node may decide, and crash before it's heard.
#
# Questions, with 4 nodes, 2 faults, all inputs and --clear 1, of agreement, validity, finality and
# termination:
#     3 rounds, --faults crash    all yes
#     2 rounds, --faults crash    termination no, and the others yes
#     2 rounds, --faults none     all yes
values 2 period 1

input x
state seen: set = single(x)      # the inputs that the node knows of
state heard: num = 0             # the messages of this round
state before: num = n            # those of the round before it
state calm: bool = false         # in two rounds in a row it heard as many
state done: set = empty
decide done

at 1:
  message (s: set)
  send when true: (seen)
  on message:
    seen := seen union s;
    heard := heard + 1;
  end:
    done := if calm or round >= t + 1 then seen else done;
    calm := calm or heard = before;
    before := heard; heard := 0;
";
