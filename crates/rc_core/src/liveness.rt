// The locals that are live as `specs/Live.antt` computes them, and that `specs/Execution.antt` holds at
// deletions, are those of the paths of `specs/Flow.antt`.

ghost use Rattle.std.specs.Prelude.{◌≡◌, ℕ, List, [], ◌∷◌, ◌↔◌, Option, Some, IsTrue};
ghost use Rattle.rc_core.specs.Programs.{Expr, Function, Program, Stmt, Stmts, branch};
ghost use Rattle.rc_core.specs.Heap.{Value};
ghost use Rattle.rc_core.specs.Runs.{Calls, Ops, bind};
ghost use Rattle.rc_core.specs.Live.{
  Ways,
  at_end,
  before,
  before_all,
  either,
  for_body,
  for_third,
  repeat_body,
  repeat_head,
  then_live,
  while_body,
};
ghost use Rattle.rc_core.specs.Flow.{
  AreLive,
  IsLive,
  IsLiveBehind,
  Item,
  Point,
  condition,
  for_loop,
  round_end,
  statement,
  statements,
  while_loop,
};
ghost use Rattle.rc_core.specs.Execution.{exec, first_locals, result_of, run_function};
ghost use Rattle.rc_core.specs.Source.{World};
ghost use Rattle.rc_core.specs.Points.{exec_at, live_at, live_behind, ways_of};

/// What is computed as live is what some way on uses before it sets it: at the end of a body
/// nothing; from what is live at a point, what is live before each statement there and at each part
/// of a loop there; and behind each condition what is live on one of both ways.
pub fn liveness_is_a_path()
    ensures end { AreLive at_end [] }
    ensures one { (s : Stmt) (k : Ways) (p : Point) → AreLive k p → AreLive (then_live (before s k) k) (statement s ∷ p) }
    ensures all { (body : Stmts) (k : Ways) (p : Point) → AreLive k p → AreLive (then_live (before_all body k) k) (statements body p) }
    ensures in_while { (test : Expr) (body : Stmt) (k : Ways) (p : Point) → AreLive k p → AreLive (while_body test body k) (round_end (while_loop test body) ∷ p) }
    ensures in_do { (test : Expr) (body : Stmt) (k : Ways) (p : Point) → AreLive k p → AreLive (repeat_body body test k) (round_end (while_loop test body) ∷ p) }
    ensures in_for { (test : Option Expr) (third body : Stmt) (k : Ways) (p : Point) → AreLive k p → AreLive (for_body test third body k) (round_end (for_loop test third body) ∷ p) }
    ensures between_rounds { (test : Option Expr) (third body : Stmt) (k : Ways) (p : Point) → AreLive k p → AreLive (for_third test third body k) (condition (for_loop test third body) ∷ p) }
    ensures behind_if { (line : ℕ) (test : Expr) (a b : Stmt) (k : Ways) (p : Point) → AreLive k p → (x : ℕ) → IsTrue (either (before a k) (before b k) x) ↔ IsLiveBehind x (statement (branch line test a b)) p }
    ensures behind_while { (test : Expr) (body : Stmt) (k : Ways) (p : Point) → AreLive k p → (x : ℕ) → IsTrue (either k.next (before body (while_body test body k)) x) ↔ IsLiveBehind x (condition (while_loop test body)) p }
    ensures behind_do { (test : Expr) (body : Stmt) (k : Ways) (p : Point) → AreLive k p → (x : ℕ) → IsTrue (either k.next (repeat_head body test k) x) ↔ IsLiveBehind x (condition (while_loop test body)) p }
    ensures behind_for { (test : Expr) (third body : Stmt) (k : Ways) (p : Point) → AreLive k p → (x : ℕ) → IsTrue (either k.next (before body (for_body (Some test) third body k)) x) ↔ IsLiveBehind x (condition (for_loop (Some test) third body)) p }
{}

/// An execution holds, at each deletion and at each call of a function that deletes, the values of
/// exactly those locals that are live where the node leads by the paths, the assigned one excepted.
/// `live_at` and `live_behind` are what the paths say of a point, and of where an item leads. With
/// what is live at a point, a statement in front of it runs as by `exec_at`, which gives each node
/// what is live behind it in the point where it stands; and so does a function's body, behind which
/// nothing is left to do.
pub fn execution_holds_what_is_live()
    ensures at { (p : Point) (x : ℕ) → IsTrue (live_at p x) ↔ IsLive x p }
    ensures behind { (i : Item) (rest : Point) (x : ℕ) → IsTrue (live_behind i rest x) ↔ IsLiveBehind x i rest }
    ensures ways { (p : Point) → AreLive (ways_of p) p }
    ensures runs { (ops : Ops World) (program : Program) (s : Stmt) (f : Function) (calls : Calls World) (p : Point) (locals : List Value) (w : World) → exec ops program s f calls (ways_of p) locals w ≡ exec_at ops program s f calls p locals w }
    ensures bodies { (ops : Ops World) (program : Program) (f : Function) (calls : Calls World) (arguments : List Value) (w : World) → run_function ops program calls (Some f) arguments w ≡ bind (exec_at ops program f.body f calls [] (first_locals f arguments) w) (result_of f.result) }
{}
