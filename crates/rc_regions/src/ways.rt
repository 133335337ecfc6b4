// The links of slots to their ancestors.
ghost use Rattle.std.specs.Prelude.{◌≡◌, ◌≤◌, ◌<◌, ◌^◌, ℕ, [], length, replicate, slice_index_or, slice_set, IfOk, OnOk};
ghost use Rattle.rc_regions.specs.Columns.{links_in};
ghost use Rattle.rc_regions.specs.Ways.{Reach, NoneShorter};

use rc_base::NoMemory;
use std::alloc::Global;
use std::marker::Model;

/// How many ancestors a slot can link to: depths are below 2 to the power of this number.
const LINKS: usize = 32;

/// The ancestors 1, 2, 4, 8 and so on above, each in a column by slots. A slot has as many as its depth has
/// binary digits; what stands in further columns is never read. A column has places only where some slot
/// was so deep, so that a tree of low depth pays for few of them. Contracts see the columns; behind the end
/// of one all link to the root.
#[derive(Drop)]
pub(crate) struct Ways {
    columns: Vec<Vec<u32>>,
}

impl Model for Ways {
    ghost use Rattle.std.specs.Prelude.{◌≡◌, List, ℕ, length, map};

    ghost Value = { List (List ℕ) };

    ghost view = { λ w. map (λ column. column.items) w.columns.items };

    ghost invariant = { λ w. length w.columns.items ≡ 32 };
}

/// So many slots have a place in a column.
fn add_places(column: &mut Vec<u32>, slots: usize) -> Result<(), NoMemory>
    ensures places { OnOk result (slots ≤ length column.new.items) }
    ensures longer { length column.old.items ≤ length column.new.items }
    ensures links { (s : ℕ) → slice_index_or column.new.items s 0 ≡ slice_index_or column.old.items s 0 }
{
    if column.len() >= slots {
        return Ok(());
    }
    column.resize(slots, 0)?;
    Ok(())
}

impl Ways {
    /// Columns without a place.
    pub(crate) fn new(alloc: Global) -> Result<Ways, NoMemory>
        ensures { IfOk result (λ ways. ways ≡ replicate 32 []) }
    {
        let mut columns = Vec::with_capacity(alloc, LINKS)?;
        for _ in 0..LINKS {
            columns.push(Vec::new(alloc))?;
        }
        Ok(Ways { columns })
    }

    /// A link of a slot.
    pub(crate) fn link_at(&self, slot: u32, power: usize) -> u32
        requires { power < 32 }
        ensures { result ≡ slice_index_or (slice_index_or self.now power []) slot 0 }
    {
        match self.columns[power].get(slot as usize) {
            Some(above) => *above,
            None => 0,
        }
    }

    /// Writes a link of a slot. The column has a place for it.
    pub(crate) fn set_link(&mut self, slot: u32, power: usize, above: u32)
        requires power { power < 32 }
        requires place { slot < length (slice_index_or self.old power []) }
        ensures written { self.new ≡ slice_set self.old power (slice_set (slice_index_or self.old power []) slot above) }
        ensures long { length self.old ≡ 32 }
    {
        self.columns[power][slot as usize] = above;
    }

    /// So many slots have a place in a column.
    fn lengthen(&mut self, power: usize, slots: usize) -> Result<(), NoMemory>
        requires { power < 32 }
        ensures places { OnOk result (slots ≤ length (slice_index_or self.new power [])) }
        ensures others { NoneShorter self.old self.new }
        ensures links { links_in self.new ≡ links_in self.old }
    {
        add_places(&mut self.columns[power], slots)
    }

    /// So many slots have a place for each link of a slot so deep. No link changes.
    pub(crate) fn reserve(&mut self, slots: usize, depth: u32) -> Result<(), NoMemory>
        ensures places { OnOk result (Reach self.new slots depth) }
        ensures links { links_in self.new ≡ links_in self.old }
    {
        let mut power = 0;
        let mut reach: u64 = 1;
        while reach <= depth as u64 {
            self.lengthen(power, slots)?;
            power += 1;
            reach *= 2;
        }
        Ok(())
    }
}
