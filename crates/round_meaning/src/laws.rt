//! Laws of the definitions; the functions do nothing.
ghost use Rattle.round_meaning.specs.Typed.{EndsAreStates, SendsAreMessages, StartsAreStates};
ghost use Rattle.round_meaning.specs.Typed.{TypedValuesFit};
ghost use Rattle.round_meaning.specs.Agreement.{Agreement, DecisionsAreLocked, NoOtherLocks};
ghost use Rattle.round_meaning.specs.Agreement.{Validity};
ghost use Rattle.round_meaning.specs.Laws.{DifferencesAreExact, DifferencesStop, InboxesRise};
ghost use Rattle.round_meaning.specs.Laws.{OnlyPastCounts, OnlySendersCount};
ghost use Rattle.round_meaning.specs.Laws.{OnlySendersCountInRuns, SumsAreExact, SumsStop};
ghost use Rattle.round_meaning.specs.Places.{PlacesAreKept};
ghost use Rattle.round_meaning.specs.SetMembers.{SetsAreMembers};

use round_check::Checked;

/// Sums stop at 4,294,967,295, and differences at 0.
pub fn numbers_stop()
    ensures sums_exact { SumsAreExact }
    ensures sums_stop { SumsStop }
    ensures differences_exact { DifferencesAreExact }
    ensures differences_stop { DifferencesStop }
{}

/// What each form and operator on sets gives, by its members.
pub fn sets_are_members()
    ensures { SetsAreMembers }
{}

/// Whether a node that doesn't send is omitted makes no difference, neither to an inbox nor to a
/// state.
pub fn only_senders_count()
    ensures inbox { OnlySendersCount }
    ensures state { OnlySendersCountInRuns }
{}

/// A state depends on the omissions of the rounds before it alone.
pub fn only_past_counts()
    ensures { OnlyPastCounts }
{}

/// What a node gets in a round is an inbox: of each sender one message at most, in rising order of
/// sender.
pub fn inboxes_rise()
    ensures { InboxesRise }
{}

/// The value of a typed expression has its type, in every environment that fits.
pub fn typed_values_fit()
    ensures { TypedValuesFit }
{}

/// States and messages of a checked program have a value of its type for each variable and field.
pub fn types_are_kept(program: &Checked)
    ensures starts { StartsAreStates program.now }
    ensures sends { SendsAreMessages program.now }
    ensures ends { EndsAreStates program.now }
{
    program.typed();
    let _values = program.program().values();
}

/// No value of a checked program depends on what means nothing where it is computed: an initial
/// value on no round, phase, receiver or sender, what is sent on no sender, what is done with a
/// message on no receiver, and how a round ends on neither.
pub fn places_are_kept(program: &Checked)
    ensures { PlacesAreKept program.now }
{
    program.typed();
}

/// Algorithm 1, for a setup with fewer than half of the nodes faulty, keeps agreement and validity
/// under every omission table: any two decisions, of any nodes after any rounds, are equal, and
/// each is some node's input. These are the premises of `run_rounds`, `explain` and `run_threads`.
pub fn decisions_agree()
    ensures agreement { Agreement }
    ensures validity { Validity }
{}

/// The invariant behind it: from the round on in which v is decided in phase k, more than t nodes
/// hold a lock on v of phase k or later, and no lock on another value has phase k or later.
pub fn decisions_are_locked()
    ensures holders { DecisionsAreLocked }
    ensures others { NoOtherLocks }
{}
