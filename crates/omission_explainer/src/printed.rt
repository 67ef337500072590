//! What the three sets of a closed round have in common, as contracts of calls that do nothing.
ghost use Rattle.std.specs.Prelude.{◌≡◌, ◌≤◌, ℕ, Bool, List, is_some, not};
ghost use Rattle.round_lang.specs.Sets.{is_in};
ghost use Rattle.round_lang.specs.declared.value.Value.{Value};
ghost use Rattle.round_meaning.specs.Rounds.{Algorithm, inbox};
ghost use Rattle.omission_explainer.specs.Printed.{PartsNodes, heard_set, omitted_set, silent_set};

/// Each node is in exactly one of the three sets.
pub fn sets_part_nodes()
    ensures { (n : ℕ) (carried sends stands : ℕ → Bool) → n ≤ 64 →
        PartsNodes n (heard_set n carried sends) (silent_set n sends stands)
        (omitted_set n carried sends stands) }
{}

/// A node has one inbox, whether the senders that weren't carried are left out of it or those that
/// are printed as omitted: these differ by silent senders alone.
pub fn omissions_give_inbox()
    ensures { (a : Algorithm) (carried stands : ℕ → Bool) (states : ℕ → List Value) (r i : ℕ)
        → a.nodes ≤ 64 → inbox a (is_in
        (omitted_set a.nodes carried (λ j. is_some (a.send r (states j) j i)) stands)) states r i
        ≡ inbox a (λ j. not (carried j)) states r i }
{}
