ghost use Rattle.std.specs.Prelude.{ℕ, ◌≤◌};
ghost use Rattle.std.specs.List.{AllByRecursion};
ghost use Rattle.desk_script.specs.Scripts.{IsScript};
ghost use Rattle.made_scripts.specs.MadeLines.{HandsInAdmitted, made_lines};
ghost use Rattle.work_maker.specs.Down.{down_outputs};
ghost use Rattle.work_maker.specs.Generator.{script_of};
ghost use Rattle.work_maker.specs.Limits.{most_jobs, script_clients};

/// What the generator writes is the script of its lines, for its clients: a desk takes it.
pub fn made_script_is_script()
    ensures { (jobs : ℕ) → jobs ≤ most_jobs → IsScript script_clients (script_of jobs) (made_lines jobs) }
{}

/// Each of these lines that hands in, hands in a file that is admitted, and gives the output 1.
pub fn made_lines_are_admitted()
    ensures { (jobs : ℕ) → AllByRecursion (HandsInAdmitted script_clients down_outputs) (made_lines jobs) }
{}
