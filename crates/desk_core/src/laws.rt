ghost use Rattle.desk_core.specs.Hands.{HandLaw};
ghost use Rattle.desk_core.specs.Isolation.{Isolation, JournalsAreIsolated};
ghost use Rattle.desk_core.specs.Journals.{LegalIsKept};
ghost use Rattle.desk_core.specs.NextBatch.{CutIsLongest};
ghost use Rattle.desk_core.specs.RegisteredFacts.{RegistryLaw};
ghost use Rattle.desk_core.specs.SoundDesks.{SoundIsKept};
ghost use Rattle.desk_core.specs.Stays.{HoldsOnLaw, RegisteredStaysLaw, RegistersLaw, ReturnsLaw, ShownStaysLaw, StaysLaw, TakesLaw, YesStaysLaw};

/// Whatever happens at a desk, the replies to a client's offers before the first close are those that these offers alone determine.
pub fn isolation()
    ensures { Isolation }
{}

/// The same of every legal journal.
pub fn journals_are_isolated()
    ensures { JournalsAreIsolated }
{}

/// A legal journal stays legal when what Next gives is added.
pub fn legal_is_kept()
    ensures { LegalIsKept }
{}

/// What Next gives keeps a desk sound.
pub fn sound_is_kept()
    ensures { SoundIsKept }
{}

/// A fact is in the registry exactly where it is that of some job in a registered batch.
pub fn registry_law()
    ensures { RegistryLaw }
{}

/// The number of jobs in the next batch is the greatest within the limits of a batch.
pub fn cut_is_longest()
    ensures { CutIsLongest }
{}

/// A batch is taken by a pass exactly where the pass's own entries say that it has it in hand.
pub fn hand_law()
    ensures { HandLaw }
{}

/// A batch's jobs don't change.
pub fn stays_law()
    ensures { StaysLaw }
{}

/// Whoever takes a batch holds it while others go on, and whoever holds it may register its PIEs and may give it back.
pub fn hold_laws()
    ensures takes { TakesLaw }
    ensures on { HoldsOnLaw }
    ensures registers { RegistersLaw }
    ensures returns { ReturnsLaw }
{}

/// A registered batch stays registered, so that its facts stay shown and a question that was answered Yes is answered Yes later.
pub fn registered_laws()
    ensures registered { RegisteredStaysLaw }
    ensures shown { ShownStaysLaw }
    ensures yes { YesStaysLaw }
{}
