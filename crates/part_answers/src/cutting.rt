//! Cutting texts.
ghost use Rattle.std.specs.Prelude.{◌≡◌, ◌≢◌, ◌<◌, ◌++◌, ℕ, List, MatchOption};
ghost use Rattle.part_answers.specs.Cuts.{IsCut, Lacks};

/// The texts before and after the first mark.
pub(crate) fn cut_at(text: &str, mark: char) -> Option<(&str, &str)>
    requires { mark < 128 }
    ensures { MatchOption result (Lacks mark text.now) (λ p. IsCut mark text.now p.0.now p.1.now) }
{
    text.split_once(mark)
}

/// What follows these words at a text's beginning.
pub(crate) fn after_words<'a>(text: &'a str, words: &str) -> Option<&'a str>
    ensures { MatchOption result ((rest : List ℕ) → text.now ≢ words.now ++ rest)
        (λ rest. text.now ≡ words.now ++ rest.now) }
{
    text.strip_prefix(words)
}
