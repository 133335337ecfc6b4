// What is kept of the source's world is enough.

ghost use Rattle.std.specs.Prelude.{◌≡◌, List, ℕ, slice_get};
ghost use Rattle.rc_core.specs.Programs.{Program};
ghost use Rattle.rc_core.specs.Execution.{run_main};
ghost use Rattle.rc_core.specs.Source.{World, source};
ghost use Rattle.rc_memory.specs.Change.{mapped};
ghost use Rattle.rc_base.specs.Acts.{Act};
ghost use Rattle.rc_core.specs.Runs.{bind};
ghost use Rattle.rc_memory.specs.KeptWorld.{KeptWorld, kept, kept_world};
ghost use Rattle.rc_slow.specs.Prefix.{behind_acts};
ghost use Rattle.rc_slow.specs.Size.{Falls};
ghost use Rattle.rc_slow.specs.Whole.{Progress, State, control_step, finally, started, steps, whole};

/// A law: a run that keeps of a dead region its parent alone, and of a cell's type what it holds and
/// its annotation, gives and does what the source's run does, and leaves what is kept of its world.
pub fn what_is_kept_is_enough()
    ensures { (program : Program) (w : World) → mapped kept_world (run_main source program w) ≡ run_main kept program (kept_world w) }
{}

/// A law: `main` run on the machine is `main` run at once, whatever number of steps are made first.
pub fn the_machine_is_right()
    ensures starts { (program : Program) (w : KeptWorld) → run_main kept program w ≡ bind (started program (slice_get program.functions program.main) w.turns w) (finally program) }
    ensures steps { (program : Program) (n : ℕ) (p : Progress) (w : KeptWorld) → finally program p w ≡ bind (steps program n p w) (finally program) }
{}

/// A law: what a run does, it does after the acts that were done before, from whatever state it goes on.
pub fn acts_stay_done()
    ensures main { (program : Program) (acts : List Act) (w : KeptWorld) → mapped (behind_acts acts) (run_main kept program w) ≡ run_main kept program (behind_acts acts w) }
    ensures anywhere { (program : Program) (acts : List Act) (s : State) (w : KeptWorld) → mapped (behind_acts acts) (whole program s w) ≡ whole program s (behind_acts acts w) }
{}

/// A law: each step that takes no turn leaves less to do, so that a number known before bounds those between two turns.
pub fn a_step_leaves_less()
    ensures { (program : Program) (s : State) (w : KeptWorld) → Falls s w (control_step program s.control s w) }
{}
