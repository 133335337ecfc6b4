// Sets of facts.
ghost use Rattle.std.specs.Prelude.{◌≡◌, ◌≢◌, ◌<◌, ◌≤◌, ◌||◌, ◌&&◌, ◌↔◌, not, false, length, replicate, IsTrue, IfOk, MatchBool, ℕ, ◌∷◌, []};
ghost use Rattle.rc_facts.specs.declared.fact.Fact.{Fact};
ghost use Rattle.rc_facts.specs.Derivable.{Derivable};
ghost use Rattle.rc_facts.specs.Facts.{Drops, holds, is_over, names, same_fact, with_replaced};
ghost use Rattle.rc_base.specs.BitSets.{marks};
ghost use Rattle.rc_facts.specs.Null.{null_news};
ghost use Rattle.rc_facts.specs.Shut.{extended, placed, together, IsBehind, IsBelow, IsClean, IsShut};
ghost use Rattle.rc_facts.specs.declared.fact.Fact.TheVariants.{In, NonNull, Trad, Up};

use crate::adding::{
    above_rows, null_rows, null_within_rows, one_region_rows, present_rows, traditional_rows,
};
use crate::closing::close_rows;
use crate::fact::Fact;
use crate::rows::{
    aliased, cut, double, keep, keep_links, link, linked, marked, moved, row_of, shift, write,
};
use crate::spread::led_back;
use rc_base::{BitSet, NoMemory};
use std::alloc::Global;
use std::marker::Model;

/// A set of facts over a number of variables, at most 128, which are numbered from 0. That number never
/// changes, and no call but the two that make a set takes memory.
#[derive(Drop)]
pub struct FactSet {
    within: Vec<BitSet>,
    above: Vec<BitSet>,
    traditional: BitSet,
    present: BitSet,
}

impl Model for FactSet {
    ghost use Rattle.rc_facts.specs.Facts.{Known};
    ghost use Rattle.rc_facts.specs.Inside.{fields, known_of, IsSound};

    ghost Value = { Known };

    ghost view = { λ s. known_of (fields s.within.items s.above.items s.traditional s.present) };

    ghost invariant = { λ s. IsSound (fields s.within.items s.above.items s.traditional s.present) };
}

/// `count` equal rows.
fn repeated(alloc: Global, count: u32, row: BitSet) -> Result<Vec<BitSet>, NoMemory>
    ensures { IfOk result (λ rows. rows.items ≡ replicate count row) }
{
    Ok(Vec::from_elem(alloc, row, count as usize)?)
}

/// The row, if so, and else none.
fn if_so(so: bool, row: BitSet) -> BitSet
    ensures { (y : ℕ) → marks result y ≡ (so && marks row y) }
{
    if so { row } else { BitSet::empty() }
}

impl FactSet {
    /// The set of all facts over `n` variables. The only error is want of memory.
    pub fn full(alloc: Global, n: u32) -> Result<FactSet, NoMemory>
        requires { n ≤ 128 }
        ensures variables { IfOk result (λ set. set.variables ≡ n) }
        ensures facts { IfOk result (λ set. (fact : Fact) → holds set fact ≡ is_over n fact) }
    {
        let all = BitSet::below(n as usize);
        Ok(FactSet {
            within: repeated(alloc, n, all)?,
            above: repeated(alloc, n, all)?,
            traditional: all,
            present: all,
        })
    }

    /// The set of no fact, over `n` variables. The only error is want of memory.
    pub fn empty(alloc: Global, n: u32) -> Result<FactSet, NoMemory>
        requires { n ≤ 128 }
        ensures variables { IfOk result (λ set. set.variables ≡ n) }
        ensures facts { IfOk result (λ set. (fact : Fact) → holds set fact ≡ false) }
    {
        let none = BitSet::empty();
        Ok(FactSet {
            within: repeated(alloc, n, none)?,
            above: repeated(alloc, n, none)?,
            traditional: none,
            present: none,
        })
    }

    /// How many variables there are.
    pub fn count(&self) -> u32
        ensures { result ≡ self.now.variables }
    {
        self.within.len() as u32
    }

    /// Adds a fact.
    pub fn add(&mut self, fact: Fact)
        requires { IsTrue (is_over self.old.variables fact) }
        ensures variables { self.new.variables ≡ self.old.variables }
        ensures facts { (other : Fact) → holds self.new other ≡ (holds self.old other || same_fact fact other) }
    {
        match fact {
            Fact::In(x, y) => link(&mut self.within, x as usize, y as usize),
            Fact::Up(x, y) => link(&mut self.above, x as usize, y as usize),
            Fact::Trad(x) => self.traditional = self.traditional.with(x as usize),
            Fact::NonNull(x) => self.present = self.present.with(x as usize),
        }
    }

    /// Whether the fact is in the set.
    pub fn has(&self, fact: Fact) -> bool
        requires { IsTrue (is_over self.now.variables fact) }
        ensures { result ≡ holds self.now fact }
    {
        match fact {
            Fact::In(x, y) => linked(&self.within, x as usize, y as usize),
            Fact::Up(x, y) => linked(&self.above, x as usize, y as usize),
            Fact::Trad(x) => self.traditional.contains(x as usize),
            Fact::NonNull(x) => self.present.contains(x as usize),
        }
    }

    /// Adds all that is derivable from the facts, and nothing else.
    pub fn close(&mut self)
        ensures variables { self.new.variables ≡ self.old.variables }
        ensures facts { (fact : Fact) → IsTrue (holds self.new fact) ↔ Derivable self.old.variables (holds self.old) fact }
    {
        close_rows(
            &mut self.within,
            &mut self.above,
            &mut self.traditional,
            &mut self.present,
        );
    }

    /// Keeps the facts that the other set has too, and says whether one was dropped.
    pub fn meet(&mut self, other: &FactSet) -> bool
        requires { other.now.variables ≡ self.old.variables }
        ensures variables { self.new.variables ≡ self.old.variables }
        ensures facts { (fact : Fact) → holds self.new fact ≡ (holds self.old fact && holds other.now fact) }
        ensures dropped { MatchBool result (Drops self.old self.new) (self.new ≡ self.old) }
        ensures fewer { IsTrue result → length self.new.facts < length self.old.facts }
    {
        let within = keep_links(&mut self.within, &other.within);
        let above = keep_links(&mut self.above, &other.above);
        let traditional = keep(&mut self.traditional, other.traditional);
        let present = keep(&mut self.present, other.present);
        within | above | traditional | present
    }

    /// Drops the facts that name the variable.
    pub fn forget(&mut self, x: u32)
        requires { x < self.old.variables }
        ensures variables { self.new.variables ≡ self.old.variables }
        ensures facts { (fact : Fact) → holds self.new fact ≡ (holds self.old fact && not (names x fact)) }
    {
        cut(&mut self.within, x as usize);
        cut(&mut self.above, x as usize);
        self.traditional = self.traditional.without(x as usize);
        self.present = self.present.without(x as usize);
    }

    /// Drops the facts that name `to`, and lets those that name `from` speak of `to` in its place. No
    /// fact names `from` then.
    pub fn rename(&mut self, from: u32, to: u32)
        requires from { from < self.old.variables }
        requires to { to < self.old.variables }
        requires apart { from ≢ to }
        ensures variables { self.new.variables ≡ self.old.variables }
        ensures facts { (fact : Fact) → holds self.new fact
            ≡ (holds self.old (with_replaced to from fact) && not (names from fact)) }
    {
        let (from, to) = (from as usize, to as usize);
        shift(&mut self.within, from, to);
        shift(&mut self.above, from, to);
        self.traditional = moved(self.traditional, from, to);
        self.present = moved(self.present, from, to);
    }

    /// Drops the facts that name `to`, and lets those that name `from` speak of `to` as well.
    pub fn alias(&mut self, from: u32, to: u32)
        requires from { from < self.old.variables }
        requires to { to < self.old.variables }
        ensures variables { self.new.variables ≡ self.old.variables }
        ensures facts { (fact : Fact) → holds self.new fact ≡ holds self.old (with_replaced to from fact) }
    {
        let (from, to) = (from as usize, to as usize);
        double(&mut self.within, from, to);
        double(&mut self.above, from, to);
        self.traditional = aliased(self.traditional, from, to);
        self.present = aliased(self.present, from, to);
    }

    /// Drops the facts that name `x`, and lets it be in and above the variables of two rows, those of two
    /// more be in it and above it, and it be traditional and not null where that is said.
    pub(crate) fn place(
        &mut self,
        x: u32,
        row_in: BitSet,
        row_up: BitSet,
        into_in: BitSet,
        into_up: BitSet,
        trad: bool,
        present: bool,
    )
        requires x { x < self.old.variables }
        requires row_in { IsBelow self.old.variables row_in }
        requires row_up { IsBelow self.old.variables row_up }
        requires into_in { IsBelow self.old.variables into_in }
        requires into_up { IsBelow self.old.variables into_up }
        ensures variables { self.new.variables ≡ self.old.variables }
        ensures facts { (fact : Fact) → holds self.new fact
            ≡ extended x (placed row_in row_up into_in into_up trad present) (holds self.old) fact }
    {
        let x = x as usize;
        write(&mut self.within, x, row_in, into_in);
        write(&mut self.above, x, row_up, into_up);
        self.traditional = marked(self.traditional, x, trad);
        self.present = marked(self.present, x, present);
    }

    /// Adds that a variable isn't null, and all that is derivable then, save on a variable that no fact
    /// names. Without such a variable and the rest of them all being derivable nothing is said.
    pub fn add_present(&mut self, x: u32)
        requires { x < self.old.variables }
        ensures variables { self.new.variables ≡ self.old.variables }
        ensures facts { (s : ℕ) → s ≢ x → IsShut self.old.variables s (holds self.old) → IsClean s (holds self.old)
            → (fact : Fact) → IsTrue (holds self.new fact) ↔ IsBehind self.old.variables s (holds self.old) (NonNull x ∷ []) fact }
    {
        present_rows(
            &mut self.within,
            &mut self.above,
            &mut self.traditional,
            &mut self.present,
            x as usize,
        );
    }

    /// Adds that a variable is traditional, and all that is derivable then, save on a variable that no
    /// fact names.
    pub fn add_traditional(&mut self, x: u32)
        requires { x < self.old.variables }
        ensures variables { self.new.variables ≡ self.old.variables }
        ensures facts { (s : ℕ) → s ≢ x → IsShut self.old.variables s (holds self.old) → IsClean s (holds self.old)
            → (fact : Fact) → IsTrue (holds self.new fact) ↔ IsBehind self.old.variables s (holds self.old) (Trad x ∷ []) fact }
    {
        traditional_rows(
            &mut self.within,
            &mut self.above,
            &mut self.traditional,
            self.present,
            x as usize,
        );
    }

    /// Adds that a variable which may be null is null, and all that is derivable then, save on the scratch
    /// variable.
    pub fn add_null(&mut self, x: u32, scratch: u32)
        requires x { x < self.old.variables }
        requires scratch { scratch < self.old.variables }
        requires apart { scratch ≢ x }
        requires null { holds self.old (NonNull x) ≡ false }
        requires shut { IsShut self.old.variables scratch (holds self.old) }
        requires clean { IsClean scratch (holds self.old) }
        ensures variables { self.new.variables ≡ self.old.variables }
        ensures facts { (fact : Fact) → IsTrue (holds self.new fact)
            ↔ IsBehind self.old.variables scratch (holds self.old) (null_news self.old.variables x) fact }
    {
        null_rows(
            &mut self.within,
            &mut self.above,
            &mut self.traditional,
            self.present,
            x as usize,
            scratch as usize,
        );
    }

    /// Gives a variable the facts of a new region's object, in place of its own, and all that is
    /// derivable then: the scratch variable, which no fact names, stands for the object.
    pub fn assign_made(&mut self, x: u32, scratch: u32)
        requires x { x < self.old.variables }
        requires scratch { scratch < self.old.variables }
        requires apart { scratch ≢ x }
        requires shut { IsShut self.old.variables scratch (holds self.old) }
        requires clean { IsClean scratch (holds self.old) }
        ensures variables { self.new.variables ≡ self.old.variables }
        ensures facts { (fact : Fact) → IsTrue (holds self.new fact)
            ↔ (Derivable self.old.variables (together (holds self.old) (NonNull scratch ∷ [])) (with_replaced x scratch fact) × (names scratch fact ≡ false)) }
    {
        let none = BitSet::empty();
        let traditional = self.traditional;
        self.place(x, none, none, none, traditional, false, true);
    }

    /// As `assign_made`, where nothing is known of what the variable gets.
    pub fn assign_unknown(&mut self, x: u32, scratch: u32)
        requires x { x < self.old.variables }
        requires scratch { scratch < self.old.variables }
        requires apart { scratch ≢ x }
        requires shut { IsShut self.old.variables scratch (holds self.old) }
        requires clean { IsClean scratch (holds self.old) }
        ensures variables { self.new.variables ≡ self.old.variables }
        ensures facts { (fact : Fact) → IsTrue (holds self.new fact)
            ↔ (Derivable self.old.variables (together (holds self.old) ([])) (with_replaced x scratch fact) × (names scratch fact ≡ false)) }
    {
        let none = BitSet::empty();
        self.place(x, none, none, none, none, false, false);
    }

    /// As `assign_made`, of an object of the traditional region.
    pub fn assign_fixed(&mut self, x: u32, scratch: u32)
        requires x { x < self.old.variables }
        requires scratch { scratch < self.old.variables }
        requires apart { scratch ≢ x }
        requires shut { IsShut self.old.variables scratch (holds self.old) }
        requires clean { IsClean scratch (holds self.old) }
        ensures variables { self.new.variables ≡ self.old.variables }
        ensures facts { (fact : Fact) → IsTrue (holds self.new fact)
            ↔ (Derivable self.old.variables (together (holds self.old) (Trad scratch ∷ NonNull scratch ∷ [])) (with_replaced x scratch fact) × (names scratch fact ≡ false)) }
    {
        let (root, there) = (self.traditional, self.present);
        self.place(x, root.intersection(there), there, root, root, true, true);
    }

    /// As `assign_made`, of null or an object of the traditional region.
    pub fn assign_traditional(&mut self, x: u32, scratch: u32)
        requires x { x < self.old.variables }
        requires scratch { scratch < self.old.variables }
        requires apart { scratch ≢ x }
        requires shut { IsShut self.old.variables scratch (holds self.old) }
        requires clean { IsClean scratch (holds self.old) }
        ensures variables { self.new.variables ≡ self.old.variables }
        ensures facts { (fact : Fact) → IsTrue (holds self.new fact)
            ↔ (Derivable self.old.variables (together (holds self.old) (Trad scratch ∷ [])) (with_replaced x scratch fact) × (names scratch fact ≡ false)) }
    {
        let (root, there) = (self.traditional, self.present);
        let none = BitSet::empty();
        self.place(x, root.intersection(there), there, none, none, true, false);
    }

    /// As `assign_made`, of null or an object of the region of `y`.
    pub fn assign_within(&mut self, x: u32, y: u32, scratch: u32)
        requires x { x < self.old.variables }
        requires y { y < self.old.variables }
        requires scratch { scratch < self.old.variables }
        requires apart { scratch ≢ x }
        requires other { scratch ≢ y }
        requires shut { IsShut self.old.variables scratch (holds self.old) }
        requires clean { IsClean scratch (holds self.old) }
        ensures variables { self.new.variables ≡ self.old.variables }
        ensures facts { (fact : Fact) → IsTrue (holds self.new fact)
            ↔ (Derivable self.old.variables (together (holds self.old) (In scratch y ∷ [])) (with_replaced x scratch fact) × (names scratch fact ≡ false)) }
    {
        let within = row_of(&self.within, y as usize);
        let above = row_of(&self.above, y as usize);
        let root = self.traditional.contains(y as usize);
        let none = BitSet::empty();
        self.place(x, within, above, none, none, root, false);
    }

    /// As `assign_made`, of null or an object of a region above that of `y`, or of that.
    pub fn assign_above(&mut self, x: u32, y: u32, scratch: u32)
        requires x { x < self.old.variables }
        requires y { y < self.old.variables }
        requires scratch { scratch < self.old.variables }
        requires apart { scratch ≢ x }
        requires other { scratch ≢ y }
        requires shut { IsShut self.old.variables scratch (holds self.old) }
        requires clean { IsClean scratch (holds self.old) }
        ensures variables { self.new.variables ≡ self.old.variables }
        ensures facts { (fact : Fact) → IsTrue (holds self.new fact)
            ↔ (Derivable self.old.variables (together (holds self.old) (Up scratch y ∷ [])) (with_replaced x scratch fact) × (names scratch fact ≡ false)) }
    {
        let above = row_of(&self.above, y as usize);
        let root = self.traditional.contains(y as usize);
        let within = if_so(root, self.traditional.intersection(self.present));
        let none = BitSet::empty();
        self.place(x, within, above, none, none, root, false);
    }

    /// As `assign_made`, of a new region under that of `y`.
    pub fn assign_under(&mut self, x: u32, y: u32, scratch: u32)
        requires x { x < self.old.variables }
        requires y { y < self.old.variables }
        requires scratch { scratch < self.old.variables }
        requires apart { scratch ≢ x }
        requires other { scratch ≢ y }
        requires shut { IsShut self.old.variables scratch (holds self.old) }
        requires clean { IsClean scratch (holds self.old) }
        ensures variables { self.new.variables ≡ self.old.variables }
        ensures facts { (fact : Fact) → IsTrue (holds self.new fact)
            ↔ (Derivable self.old.variables (together (holds self.old) (NonNull scratch ∷ Up y scratch ∷ [])) (with_replaced x scratch fact) × (names scratch fact ≡ false)) }
    {
        let over = led_back(self.traditional.with(y as usize), &self.above);
        let none = BitSet::empty();
        self.place(x, none, none, none, over, false, true);
    }

    /// As `assign_made`, of the value of `y`. Where `y` isn't null, the same is known of any object of its
    /// region (`beside`).
    pub fn assign_moved(&mut self, x: u32, y: u32, scratch: u32)
        requires x { x < self.old.variables }
        requires y { y < self.old.variables }
        requires scratch { scratch < self.old.variables }
        requires apart { scratch ≢ x }
        requires other { scratch ≢ y }
        requires shut { IsShut self.old.variables scratch (holds self.old) }
        requires clean { IsClean scratch (holds self.old) }
        ensures variables { self.new.variables ≡ self.old.variables }
        ensures facts { (fact : Fact) → IsTrue (holds self.new fact)
            ↔ (Derivable self.old.variables (together (holds self.old) (In scratch y ∷ In y scratch ∷ [])) (with_replaced x scratch fact) × (names scratch fact ≡ false)) }
        ensures beside { IsTrue (holds self.old (NonNull y)) → (fact : Fact) → IsTrue (holds self.new fact)
            ↔ (Derivable self.old.variables (together (holds self.old) (NonNull scratch ∷ In scratch y ∷ [])) (with_replaced x scratch fact) × (names scratch fact ≡ false)) }
    {
        self.alias(y, x);
    }

    /// As `assign_made`, of null: it is traditional, and in the region of each variable.
    pub fn assign_null(&mut self, x: u32, scratch: u32)
        requires x { x < self.old.variables }
        requires scratch { scratch < self.old.variables }
        requires apart { scratch ≢ x }
        requires shut { IsShut self.old.variables scratch (holds self.old) }
        requires clean { IsClean scratch (holds self.old) }
        ensures variables { self.new.variables ≡ self.old.variables }
        ensures facts { (fact : Fact) → IsTrue (holds self.new fact)
            ↔ (Derivable self.old.variables (together (holds self.old) (null_news self.old.variables scratch)) (with_replaced x scratch fact) × (names scratch fact ≡ false)) }
    {
        let all = BitSet::below(self.within.len()).without(scratch as usize);
        let none = BitSet::empty();
        self.place(x, all, all, none, none, true, false);
    }

    /// Adds that `y` isn't null, where `x` isn't.
    fn follow(&mut self, x: u32, y: u32, scratch: u32)
        requires x { x < self.old.variables }
        requires y { y < self.old.variables }
        requires apart { scratch ≢ y }
        requires shut { IsShut self.old.variables scratch (holds self.old) }
        requires clean { IsClean scratch (holds self.old) }
        ensures variables { self.new.variables ≡ self.old.variables }
        ensures facts { MatchBool (holds self.old (NonNull x))
            ((fact : Fact) → IsTrue (holds self.new fact) ↔ IsBehind self.old.variables scratch (holds self.old) (NonNull y ∷ []) fact)
            (self.new ≡ self.old) }
    {
        if self.present.contains(x as usize) {
            self.add_present(y);
        }
    }

    /// Adds that a variable is in or above another's region, and all that is derivable then, save on the
    /// scratch variable.
    pub fn add_above(&mut self, x: u32, y: u32, scratch: u32)
        requires x { x < self.old.variables }
        requires y { y < self.old.variables }
        requires apart_x { scratch ≢ x }
        requires apart_y { scratch ≢ y }
        requires shut { IsShut self.old.variables scratch (holds self.old) }
        requires clean { IsClean scratch (holds self.old) }
        ensures variables { self.new.variables ≡ self.old.variables }
        ensures facts { (fact : Fact) → IsTrue (holds self.new fact)
            ↔ IsBehind self.old.variables scratch (holds self.old) (Up x y ∷ []) fact }
    {
        self.follow(x, y, scratch);
        above_rows(
            &mut self.within,
            &mut self.above,
            &mut self.traditional,
            self.present,
            x as usize,
            y as usize,
        );
    }

    /// Adds that a variable is in another's region, and all that is derivable then, save on the scratch
    /// variable.
    pub fn add_within(&mut self, x: u32, y: u32, scratch: u32)
        requires x { x < self.old.variables }
        requires y { y < self.old.variables }
        requires apart_x { scratch ≢ x }
        requires apart_y { scratch ≢ y }
        requires shut { IsShut self.old.variables scratch (holds self.old) }
        requires clean { IsClean scratch (holds self.old) }
        ensures variables { self.new.variables ≡ self.old.variables }
        ensures facts { (fact : Fact) → IsTrue (holds self.new fact)
            ↔ IsBehind self.old.variables scratch (holds self.old) (In x y ∷ []) fact }
    {
        if self.present.contains(x as usize) {
            self.add_present(y);
            one_region_rows(
                &mut self.within,
                &mut self.above,
                &mut self.traditional,
                self.present,
                x as usize,
                y as usize,
            );
        } else {
            null_within_rows(
                &mut self.within,
                &mut self.above,
                &mut self.traditional,
                self.present,
                x as usize,
                y as usize,
            );
        }
    }

    /// Takes the facts of the other set in place of its own.
    pub fn copy(&mut self, other: &FactSet)
        requires { other.now.variables ≡ self.old.variables }
        ensures { self.new ≡ other.now }
    {
        self.within.copy_from_slice(&other.within);
        self.above.copy_from_slice(&other.above);
        self.traditional = other.traditional;
        self.present = other.present;
    }
}
