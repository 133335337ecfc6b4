// What is listed at the deleting points of region code.
ghost use Rattle.std.specs.Prelude.{◌≡◌, ◌<◌, ℕ, length, map, slice_get, Some, OnOk, OnErr};
ghost use Rattle.rc_rlang.specs.LiveMaps.{held_of, point_in, list_at, with_listed, IsIncreasing, IsGreater, IsMap, IsPoint};

use rc_base::NoMemory;
use smallvec::SmallVec;
use std::marker::Model;

/// A deleting point, and the locals that are listed there. Up to eight stand in the list itself.
#[derive(Debug, Drop, PartialEq, Eq)]
pub struct Held {
    pub point: u32,
    pub locals: SmallVec<u32, 8>,
}

/// A list of locals at each deleting point: those whose values a deletion there holds. The points
/// increase, and so does each list. It takes memory for its points, and for lists of more than eight.
#[derive(Drop)]
pub struct LiveMap {
    lists: Vec<Held>,
}

impl Model for LiveMap {
    ghost use Rattle.std.specs.Prelude.{List, map};
    ghost use Rattle.rc_rlang.specs.LiveLists.{Held as Listed};
    ghost use Rattle.rc_rlang.specs.LiveMaps.{held_of, IsMap};

    ghost Value = { List Listed };

    ghost view = { λ m. map held_of m.lists.items };

    ghost invariant = { λ m. IsMap (map held_of m.lists.items) };
}

/// Where the entry of a point stands among those of a map.
fn place_of(lists: &[Held], point: u32) -> usize
    requires map { IsMap (map held_of lists.now) }
    requires point { IsPoint (map held_of lists.now) point }
    ensures inside { result < length lists.now }
    ensures listed { (h : _) → slice_get lists.now result ≡ Some h → list_at (map held_of lists.now) point ≡ Some h.locals.items }
    ensures there { (h : _) → slice_get lists.now result ≡ Some h → h.point ≡ point }
{
    let mut low = 0;
    let mut high = lists.len();
    while high - low > 1 {
        let middle = low + (high - low) / 2;
        if lists[middle].point <= point {
            low = middle;
        } else {
            high = middle;
        }
    }
    low
}

impl LiveMap {
    /// The map with these lists. It is not asked whether some region code has them.
    pub fn new(lists: Vec<Held>) -> LiveMap
        requires { IsMap (map held_of lists.items) }
        ensures { result ≡ map held_of lists.items }
    {
        LiveMap { lists }
    }

    /// The locals that are listed at a deleting point, in increasing order.
    pub fn after(&self, point: u32) -> &[u32]
        requires { IsPoint self.now point }
        ensures list { list_at self.now point ≡ Some result.now }
        ensures increases { IsIncreasing result.now }
    {
        let place = place_of(self.lists.as_slice(), point);
        self.lists[place].locals.as_slice()
    }

    /// Lists a local at a deleting point, behind those that are listed there. It must be greater than
    /// those.
    ///
    /// # Errors
    ///
    /// Out of memory. The map is unchanged then.
    pub fn list(&mut self, point: u32, local: u32) -> Result<(), NoMemory>
        requires { IsGreater self.old point local }
        ensures listed { OnOk result (self.new ≡ with_listed point local self.old) }
        ensures same { OnErr result (self.new ≡ self.old) }
    {
        let place = place_of(self.lists.as_slice(), point);
        Ok(self.lists[place].locals.push(local)?)
    }
}
