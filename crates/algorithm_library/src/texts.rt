//! The texts of the programs, behind `values K`.
ghost use Rattle.std.specs.Prelude.{◌≡◌};
ghost use Rattle.algorithm_library.specs.Texts.{count_votes_rest, dls1_rest, gather_rest};

const GATHER: &str = " period 1
input x
state seen: set = single(x)
decide seen
at 1:
  message (s: set)
  send when true: (seen)
  on message: seen := seen union s;
  end:
";

const COUNT_VOTES: &str = " period 1
input x
state votes: row = zero
state last: row = zero
state top: set = empty
decide top
at 1:
  message (v: num)
  send when true: (x)
  on message: votes := [w : if w = v then votes[w] + 1 else votes[w]];
  end: top := {w : votes[w] > n div 2}; last := votes; votes := zero;
";

const DLS1: &str = " period 4
input x
state proper: set = single(x)
state locks: row = zero
state lists: row = zero
state prop: set = empty
state got: bool = false
state acks: num = 0
state done: set = empty
decide done
at 1:
  message (list: set, p: set)
  send when dest = (phase - 1) mod n:
    ({v : has(proper, v) and size({w : w <> v and locks[w] > 0}) = 0}, proper)
  on message:
    lists := [v : if has(list, v) then lists[v] + 1 else lists[v]];
    proper := proper union p;
  end:
    prop := if me = (phase - 1) mod n
            then single(least({v : lists[v] >= n - t})) else empty;
    lists := zero;
at 2:
  message (v: set, p: set)
  send when size(prop) > 0: (prop, proper)
  on message:
    locks := [w : if has(v, w) then phase else locks[w]];
    got := true;
    proper := proper union p;
  end:
at 3:
  message (p: set)
  send when got and dest = (phase - 1) mod n: (proper)
  on message:
    acks := acks + 1;
    proper := proper union p;
  end:
    done := if size(done) = 0 and acks >= t + 1 then prop else done;
    acks := 0; got := false; prop := empty;
at 4:
  message (l: row, p: set)
  send when size({v : locks[v] > 0}) > 0: (locks, proper)
  on message:
    locks := [v : if size({w : w <> v and l[w] > 0 and l[w] >= locks[v]}) > 0
                  then 0 else locks[v]];
    proper := proper union p;
  end:
";

pub(crate) fn gather_rest() -> &'static str
    ensures { result.now ≡ gather_rest }
{
    GATHER
}

pub(crate) fn count_votes_rest() -> &'static str
    ensures { result.now ≡ count_votes_rest }
{
    COUNT_VOTES
}

pub(crate) fn dls1_rest() -> &'static str
    ensures { result.now ≡ dls1_rest }
{
    DLS1
}
