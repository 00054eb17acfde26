ghost use Rattle.cairo_model.specs.Pie.Acceptance.{AcceptedWith, FactRecord};
ghost use Rattle.cairo_model.specs.Pie.Records.{PieRecord, KeepsRules, memory_of};
ghost use Rattle.cairo_model.specs.Pie.Staying.{AllValuesIn, StatesStay, ValuesStay};
ghost use Rattle.cairo_model.specs.Machine.Values.{Datum};
ghost use Rattle.std.specs.Prelude.{ℕ, ◌≡◌, List, Option, length};
ghost use Rattle.cairo_model.specs.Laws.{FormsAgree, RulesAgree, NeverInField, RunsAreStates, RunsAreParts, LooksUp};
ghost use Rattle.cairo_model.specs.Machine.Steps.{Arithmetic, IsExact, Registers};
ghost use Rattle.cairo_model.specs.Machine.StepFaults.{FaultFormsAgree};
ghost use Rattle.cairo_model.specs.Pie.Facts.{FactFormsAgree};
ghost use Rattle.cairo_model.specs.Limits.{least_segments, most_cells, most_file_bytes, most_segments, most_steps, offset_limit};
ghost use Rattle.cairo_model.specs.Segments.{builtin_mask, builtin_segments, execution_segment, frame_segments, program_segment};

use crate::limits::{
    LEAST_SEGMENTS, MOST_CELLS, MOST_FILE_BYTES, MOST_SEGMENTS, MOST_STEPS, OFFSET_LIMIT,
};
use crate::segments::{BUILTIN_MASK, BUILTINS, EXECUTION, FRAME, PROGRAM};

/// The limits and segments of the code are those of the definitions.
pub fn machine_constants()
    ensures file_bytes { MOST_FILE_BYTES ≡ most_file_bytes }
    ensures steps { MOST_STEPS ≡ most_steps }
    ensures segments { (LEAST_SEGMENTS ≡ least_segments) × (MOST_SEGMENTS ≡ most_segments) }
    ensures cells { MOST_CELLS ≡ most_cells }
    ensures offsets { OFFSET_LIMIT ≡ offset_limit }
    ensures mask { BUILTIN_MASK ≡ builtin_mask }
    ensures builtins { BUILTINS ≡ builtin_segments builtin_mask }
    ensures frame { FRAME ≡ frame_segments builtin_mask }
    ensures others { (PROGRAM ≡ program_segment) × (EXECUTION ≡ execution_segment) }
{}

/// The computed step and the rule in its own words say the same.
pub fn forms_agree()
    ensures { FormsAgree }
{}

/// The computed step and the rule with its fields by number say the same.
pub fn rules_agree()
    ensures { RulesAgree }
{}

/// Over the field a result, a jump and a frame are always defined.
pub fn field_faults()
    ensures { (m : ℕ → Option ℕ) (s : Registers ℕ) → NeverInField m s }
{}

/// The computed fault of a step is the first of the table's causes that applies, over any arithmetic whose test for equal
/// values is one.
pub fn fault_forms_agree<V>()
    ensures { (A : Arithmetic V) → IsExact A → FaultFormsAgree A }
{}

/// A PIE has the fact that is computed of it, where its program and its outputs are full of numbers, and no other.
pub fn fact_forms_agree()
    ensures { (pie : PieRecord) (fact : FactRecord) → FactFormsAgree pie fact }
{}

/// A PIE is accepted alone with one fact and one list of states at most.
pub fn one_acceptance()
    ensures { (pie : PieRecord) (f g : FactRecord) (us vs : List (Registers Datum)) → AcceptedWith pie f us → AcceptedWith pie g vs → (f ≡ g) × (us ≡ vs) }
{}

/// A list of states is a run exactly where each leads to the next.
pub fn runs_by_states()
    ensures { RunsAreStates }
{}

/// A run in two parts is a run through the first, and one through the second from where the first ends.
pub fn runs_by_parts()
    ensures { RunsAreParts }
{}

/// A look-up in rising cells is the map: it finds a value exactly where its cell stands.
pub fn looks_up()
    ensures { LooksUp }
{}

/// Sums, differences and products of values in so many segments lie in them too.
pub fn values_stay()
    ensures { (segments : ℕ) → ValuesStay segments }
{}

/// A run that begins in the segments of its memory's values stays there.
pub fn states_stay()
    ensures { (segments : ℕ) (m : Datum → Option Datum) → AllValuesIn segments m → StatesStay segments m }
{}

/// So does a run over the cells of a PIE that begins in its segments.
pub fn pie_states_stay()
    ensures { (pie : PieRecord) → KeepsRules pie → StatesStay (length pie.sizes) (memory_of pie.cells) }
{}
