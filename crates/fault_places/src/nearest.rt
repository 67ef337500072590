//! The name or word that is nearest to one that was written.
ghost use Rattle.std.specs.Prelude.{◌≡◌, ◌≤◌, ◌<◌, All, IfNone, IfOk, IfSome};
ghost use Rattle.fault_places.specs.Nearness as spec;
ghost use Rattle.fault_places.specs.declared.nearest.Meant.{Meant as Name};

use crate::layout::NameAt;
use round_lang::Span;
use run_events::NoMemory;
use std::alloc::Global;
use strsim::levenshtein;

/// A name or a word that could have been meant.
#[derive(Clone, Copy, PartialEq, Eq, Debug)]
pub(crate) struct Meant<'a> {
    pub(crate) text: &'a str,
    /// Where the name is declared; none of a word of the language.
    pub(crate) declared: Option<Span>,
}

impl<'a> Meant<'a> {
    /// A declared name.
    pub(crate) fn name(name: NameAt<'a>) -> Meant<'a> {
        Meant {
            text: name.text,
            declared: Some(name.span),
        }
    }

    /// A word of the language.
    pub(crate) fn word(text: &'a str) -> Meant<'a> {
        Meant {
            text,
            declared: None,
        }
    }
}

/// How many edits a name may be away from one that was meant.
fn most_edits(name: &str) -> usize
    ensures { result ≡ spec.most_edits name.now }
{
    (name.len() + 1) / 3
}

/// How many edits make one name of another, if case doesn't count.
#[tactic(auto, unfolding(crate::specs::Nearness::edits))]
fn edits(alloc: Global, name: &str, other: &str) -> Result<usize, NoMemory>
    ensures { IfOk result (λ count. count ≡ spec.edits name.now other.now) }
{
    let name = name.to_ascii_lowercase(alloc)?;
    let other = other.to_ascii_lowercase(alloc)?;
    Ok(levenshtein(alloc, &name, &other)?)
}

/// The nearest of the names to a name, if one is near enough; the first of those that are equally
/// near.
pub(crate) fn nearest<'a>(
    alloc: Global,
    name: &str,
    names: &[Meant<'a>],
) -> Result<Option<Meant<'a>>, NoMemory>
    ensures near { IfOk result (λ found. IfSome found (λ near.
        spec.edits name.now near.text.now ≤ spec.most_edits name.now)) }
    ensures nearest { IfOk result (λ found. IfSome found (λ near. All (λ (other : Name).
        spec.edits name.now near.text.now ≤ spec.edits name.now other.text.now) names.now)) }
    ensures none { IfOk result (λ found. IfNone found (All (λ (other : Name).
        spec.most_edits name.now < spec.edits name.now other.text.now) names.now)) }
{
    let mut limit = most_edits(name) + 1;
    let mut nearest = None;
    for other in names {
        let edits = edits(alloc, name, other.text)?;
        if edits < limit {
            limit = edits;
            nearest = Some(*other);
        }
    }
    Ok(nearest)
}
