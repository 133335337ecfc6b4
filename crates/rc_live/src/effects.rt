// What code does to what is live, found before it is known what is live behind it.
ghost use Rattle.std.specs.Prelude.{◌≡◌, ◌<◌, ◌≤◌, ◌||◌, ◌&&◌, ◌++◌, ◌∷◌, [], ℕ, Bool, false, List, length, is_some, option_map, IfOk};
ghost use Rattle.rc_base.specs.BitSets.{marks};
ghost use Rattle.rc_core.specs.Live.{Ways as LiveWays, unless_set};
ghost use Rattle.rc_core.specs.Programs.{Struct};
ghost use Rattle.rc_rlang.specs.RegionCode.{Steps, Test as TestValue, Code as CodeValue, loop, repeat};
ghost use Rattle.rc_rlang.specs.RegionLive.{before_act, before_code};
ghost use Rattle.rc_rlang.specs.Shapes.{act_of, code_of, codes_of, operation_of, step_of, steps_of, test_of};
ghost use Rattle.rc_live.specs.Effects.{told, Tells, UsesShown, ReadsShown, StepReadsShown, EffectFound, EffectsFound};
ghost use Rattle.rc_live.specs.Rows.{Shows, ShowWays};
ghost use Rattle.rc_live.specs.Walking.{HaveBits};

use crate::rows::{Ways, with, without};
use crate::touches::{Touched, touch};
use rc_base::{BitSet, NoMemory};
use rc_rlang::code::{Act, Code, Test};
use rc_rlang::steps::{Operation, Step};

/// What is live before code: `own` in any case, and of the other rows what is live at that way on.
#[derive(Clone, Copy)]
pub(crate) struct Effect {
    pub(crate) own: BitSet,
    pub(crate) next: BitSet,
    pub(crate) broken: BitSet,
    pub(crate) continued: BitSet,
}

impl Effect {
    /// Nothing is live, wherever it leads.
    #[tactic(auto, using(crate::proofs::Told::none_told))]
    fn none() -> Effect
        ensures { (j : ℕ) (n b c : Bool) → told result j n b c ≡ false }
    {
        Effect {
            own: BitSet::empty(),
            next: BitSet::empty(),
            broken: BitSet::empty(),
            continued: BitSet::empty(),
        }
    }

    /// What is live behind it.
    #[tactic(auto, using(crate::proofs::Told::passing_told))]
    fn passing() -> Effect
        ensures { (j : ℕ) (n b c : Bool) → j < 128 → told result j n b c ≡ n }
    {
        Effect {
            own: BitSet::empty(),
            next: BitSet::below(128),
            broken: BitSet::empty(),
            continued: BitSet::empty(),
        }
    }

    /// What is live out of the loop around it.
    #[tactic(auto, using(crate::proofs::Told::breaking_told))]
    fn breaking() -> Effect
        ensures { (j : ℕ) (n b c : Bool) → j < 128 → told result j n b c ≡ b }
    {
        Effect {
            own: BitSet::empty(),
            next: BitSet::empty(),
            broken: BitSet::below(128),
            continued: BitSet::empty(),
        }
    }

    /// What is live at the next round of the loop around it.
    #[tactic(auto, using(crate::proofs::Told::continuing_told))]
    fn continuing() -> Effect
        ensures { (j : ℕ) (n b c : Bool) → j < 128 → told result j n b c ≡ c }
    {
        Effect {
            own: BitSet::empty(),
            next: BitSet::empty(),
            broken: BitSet::empty(),
            continued: BitSet::below(128),
        }
    }

    /// What is live behind it but this local, which it sets.
    fn setting(names: &[u32], local: u32) -> Effect
        requires { HaveBits names.now }
        ensures { Tells names.now result (λ k x. unless_set local x (k.next x)) }
    {
        Effect {
            own: BitSet::empty(),
            next: without(names, BitSet::below(128), local),
            broken: BitSet::empty(),
            continued: BitSet::empty(),
        }
    }

    /// With these too, which are read first.
    #[tactic(auto, using(crate::proofs::Told::reading_told))]
    fn reading(self, row: BitSet) -> Effect
        ensures { (j : ℕ) (n b c : Bool) → told result j n b c ≡ (marks row j || told self j n b c) }
    {
        Effect {
            own: row.union(self.own),
            next: self.next,
            broken: self.broken,
            continued: self.continued,
        }
    }

    /// Of this and then that.
    #[tactic(auto, using(crate::proofs::Told::then_told))]
    fn then(self, later: Effect) -> Effect
        ensures { (j : ℕ) (n b c : Bool) → told result j n b c ≡ told self j (told later j n b c) b c }
    {
        Effect {
            own: self.own.union(self.next.intersection(later.own)),
            next: self.next.intersection(later.next),
            broken: self.broken.union(self.next.intersection(later.broken)),
            continued: self
                .continued
                .union(self.next.intersection(later.continued)),
        }
    }

    /// Of one of two, whichever.
    #[tactic(auto, using(crate::proofs::Told::or_told))]
    fn or(self, other: Effect) -> Effect
        ensures { (j : ℕ) (n b c : Bool) → told result j n b c ≡ (told self j n b c || told other j n b c) }
    {
        Effect {
            own: self.own.union(other.own),
            next: self.next.union(other.next),
            broken: self.broken.union(other.broken),
            continued: self.continued.union(other.continued),
        }
    }

    /// With nothing live behind it.
    #[tactic(auto, using(crate::proofs::Told::last_told))]
    fn last(self) -> Effect
        ensures { (j : ℕ) (n b c : Bool) → told result j n b c ≡ told self j false b c }
    {
        Effect {
            own: self.own,
            next: BitSet::empty(),
            broken: self.broken,
            continued: self.continued,
        }
    }

    /// Of a loop's body behind which this is, where that is what its next round begins with.
    #[tactic(auto, using(crate::proofs::Told::round_told))]
    fn round(self, again: Effect) -> Effect
        ensures { (j : ℕ) (n b c : Bool) → told result j n b c ≡ told self j (told again j n b c) n (told again j n b c) }
    {
        let repeated = self.next.union(self.continued);
        Effect {
            own: self.own.union(repeated.intersection(again.own)),
            next: self.broken.union(repeated.intersection(again.next)),
            broken: repeated.intersection(again.broken),
            continued: repeated.intersection(again.continued),
        }
    }

    /// The same.
    fn copy(&self) -> Effect
        ensures { result ≡ self.now }
    {
        Effect {
            own: self.own,
            next: self.next,
            broken: self.broken,
            continued: self.continued,
        }
    }

    /// What is live before it where this is live at the ways on.
    pub(crate) fn before(self, ways: &Ways) -> BitSet
        ensures { (names : List ℕ) (f : LiveWays → ℕ → Bool) (k : LiveWays) → Tells names self f → ShowWays names ways.now k → Shows names result (f k) }
    {
        let next = self.next.intersection(ways.next);
        let broken = self.broken.intersection(ways.broken);
        let continued = self.continued.intersection(ways.continued);
        self.own.union(next.union(broken.union(continued)))
    }
}

/// The local that an operation reads.
#[tactic(auto, using(crate::proofs::Doing::no_use, crate::proofs::Doing::call_use))]
fn read_by(names: &[u32], operation: &Operation) -> BitSet
    requires { HaveBits names.now }
    ensures { (structs : List Struct) → UsesShown names.now result (operation_of structs operation.now) }
{
    match touch(operation) {
        Touched::Nothing => BitSet::empty(),
        Touched::Reads(local) => with(names, BitSet::empty(), local),
        Touched::Calls(_) => BitSet::empty(),
    }
}

/// The locals that a step reads.
#[cycle(reads)]
fn read_in(names: &[u32], step: &Step) -> BitSet
    requires { HaveBits names.now }
    ensures { (structs : List Struct) → StepReadsShown names.now result (step_of structs step.now) }
{
    match step {
        Step::Set { operation, .. } => read_by(names, operation),
        Step::Fork { yes, no, .. } => {
            let by_yes = reads(names, yes.as_slice());
            let by_no = reads(names, no.as_slice());
            by_yes.union(by_no)
        }
    }
}

/// The locals that steps read.
#[cycle(reads)]
fn reads(names: &[u32], steps: &[Step]) -> BitSet
    requires { HaveBits names.now }
    ensures { (structs : List Struct) → ReadsShown names.now result (steps_of structs steps.now) }
{
    let mut row = BitSet::empty();
    for step in steps {
        row = row.union(read_in(names, step));
    }
    row
}

/// What an act does.
fn act(names: &[u32], act: &Act) -> Effect
    requires { HaveBits names.now }
    ensures { (structs : List Struct) → Tells names.now result (λ k x. before_act (act_of structs act.now) k.next x) }
{
    match act {
        Act::Assign { local, .. } => Effect::setting(names, *local),
        Act::Leave { .. } => Effect::none(),
        _ => Effect::passing(),
    }
}

/// Where a loop ends before its body: nowhere, where it has no condition.
fn way_out(test: &Option<Test>) -> Effect
    ensures { (j : ℕ) (n b c : Bool) → j < 128 → told result j n b c ≡ (is_some test.now && n) }
{
    match test {
        None => Effect::none(),
        Some(_) => Effect::passing(),
    }
}

/// Of a loop: it reads the row, and then ends, where it has a condition, or goes through its body and
/// its third part to its next round.
fn of_loop(test: &Option<Test>, row: BitSet, body: Effect, third: Effect) -> Effect
    ensures { (names : List ℕ) (line : ℕ) (steps : Steps) (of_third of_body : CodeValue) → length names ≤ 128 → ReadsShown names row steps →
        Tells names third (before_code of_third) → Tells names body (before_code of_body) → Tells names result (before_code (loop line steps (option_map test_of test.now) of_third of_body)) }
{
    way_out(test).or(body.round(third.last())).reading(row)
}

/// Of a `do`, whose condition reads the row.
fn of_repeat(row: BitSet, body: Effect) -> Effect
    ensures { (names : List ℕ) (line : ℕ) (steps : Steps) (test : TestValue) (of_body : CodeValue) → length names ≤ 128 → ReadsShown names row steps →
        Tells names body (before_code of_body) → Tells names result (before_code (repeat line of_body steps test)) }
{
    body.round(Effect::passing().reading(row))
}

/// Lists the effect of a loop, and answers it.
fn keep(listed: &mut Vec<Effect>, whole: &Effect) -> Result<Effect, NoMemory>
    ensures { IfOk result (λ e. (e ≡ whole.now) × (listed.new.items ≡ listed.old.items ++ e ∷ [])) }
{
    listed.push(whole.copy())?;
    Ok(whole.copy())
}

/// What code does. Behind the effects that are listed it lists those of its loops, each behind those in
/// it.
///
/// # Errors
///
/// Out of memory.
#[cycle(effect_of)]
pub(crate) fn effect_of(
    names: &[u32],
    code: &Code,
    listed: &mut Vec<Effect>,
) -> Result<Effect, NoMemory>
    requires { HaveBits names.now }
    ensures { (structs : List Struct) → IfOk result (λ e. EffectFound names.now (code_of structs code.now) e listed.old.items listed.new.items) }
{
    match code {
        Code::Simple { steps, act: last } => {
            let row = reads(names, steps.as_slice());
            Ok(act(names, last).reading(row))
        }
        Code::Clear { local, .. } => Ok(Effect::setting(names, *local)),
        Code::Block { body } => effect_of_all(names, body.as_slice(), listed),
        Code::Branch { steps, yes, no, .. } => {
            let one = effect_of(names, yes, listed)?;
            let other = effect_of(names, no, listed)?;
            let row = reads(names, steps.as_slice());
            Ok(one.or(other).reading(row))
        }
        Code::Loop {
            steps,
            test,
            third,
            body,
            ..
        } => {
            let inside = effect_of(names, body, listed)?;
            let again = effect_of(names, third, listed)?;
            let row = reads(names, steps.as_slice());
            let whole = of_loop(test, row, inside, again);
            keep(listed, &whole)
        }
        Code::Repeat { body, steps, .. } => {
            let inside = effect_of(names, body, listed)?;
            let row = reads(names, steps.as_slice());
            let whole = of_repeat(row, inside);
            keep(listed, &whole)
        }
        Code::Break { .. } => Ok(Effect::breaking()),
        Code::Continue { .. } => Ok(Effect::continuing()),
    }
}

/// What the code of statements does, one after another.
#[cycle(effect_of)]
fn effect_of_all(names: &[u32], body: &[Code], listed: &mut Vec<Effect>) -> Result<Effect, NoMemory>
    requires { HaveBits names.now }
    ensures { (structs : List Struct) → IfOk result (λ e. EffectsFound names.now (codes_of structs body.now) e listed.old.items listed.new.items) }
{
    let mut all = Effect::passing();
    for one in body {
        let next = effect_of(names, one, listed)?;
        all = all.then(next);
    }
    Ok(all)
}
