ghost use Rattle.std.specs.Prelude.{◌↔◌, ◌⊎◌, List, Contains};
ghost use Rattle.cairo_model.specs.Pie.Acceptance.{FactRecord};
ghost use Rattle.fact_registry.specs.Registries.{with_facts};

/// What is in a registry afterwards was there before or was put there, and nothing is lost.
pub fn registered_facts()
    ensures { (registry facts : List FactRecord) (fact : FactRecord)
        → Contains (with_facts registry facts) fact ↔ (Contains registry fact ⊎ Contains facts fact) }
{}
