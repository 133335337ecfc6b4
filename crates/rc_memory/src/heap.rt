// The heap: the regions that were made, of which a deleted one keeps its place and its parent.

ghost use Rattle.std.specs.Prelude.{◌≡◌, ◌++◌, ◌∷◌, [], length, map, drop, option_map, List, None, OnOk, OnErr, IfOk, IfErr, pos, ◌+ℤ◌, ◌&&◌};
ghost use Rattle.std.specs.List.{list_any, list_all};
ghost use Rattle.rc_base.specs.declared.ends.RunFault.TheVariants.{Memory};
ghost use Rattle.rc_core.specs.Evaluation.{toward};
ghost use Rattle.rc_core.specs.Heap.{Handle, Pointer, first_heap, global_object, global_object_of, literal, is_above, is_fresh, fits};
ghost use Rattle.rc_core.specs.Laid.{AreLaidOut, held_kind};
ghost use Rattle.rc_core.specs.Layout.{Layout};
ghost use Rattle.rc_core.specs.Programs.{Struct as Fields};
ghost use Rattle.rc_core.specs.Shapes.{bytes_of, global_of, program_of, ty_of};
ghost use Rattle.rc_core.specs.Source.{unfit};
ghost use Rattle.rc_memory.specs.Kept.{allocated, count_in, killed, with_objects, deleted, fitting, has_child, is_named, kept_heap, kinds_in, live, live_address, live_region, load, load_all, made, object_at, objects, parent, room, spot_of, step, store, written};
ghost use Rattle.rc_values.specs.Objects.{object_names, kept_object};
ghost use Rattle.rc_memory.specs.KeptWorld.{KeptWorld, kept};
ghost use Rattle.rc_memory.specs.Leaving.{Leaves};
ghost use Rattle.rc_values.specs.Outcomes.{Is, Does};
ghost use Rattle.rc_values.specs.Values.{address_of, value_of};
ghost use Rattle.rc_values.specs.declared.stop.Stop.TheVariants.{Cut};

use crate::region::Region;
use rc_base::Trap;
use rc_core::operators::Direction;
use rc_core::parts::{Global as Variable, Parts};
use rc_core::ty::{Note, Ty};
use rc_core::{Kind, Layouts};
use rc_values::{
    Address, Object, Stop, Target, Value, Values, blank, front_of, is_index, literal, note_of,
    number_object, product_of_cells, sum_of_cells, trap,
};
use std::alloc::Global;
use std::marker::Model;

#[derive(Drop)]
pub struct Heap<'p> {
    regions: Vec<Region<'p>>,
}

impl<'p> Model for Heap<'p> {
    ghost use Rattle.rc_memory.specs.Kept.{KeptHeap};

    ghost Value = { KeptHeap };

    ghost view = { λ h. h.regions.items };
}

/// A cell: the object, and the number of the cell in the object and in its element.
#[derive(Clone, Copy)]
pub(crate) struct Spot {
    pub(crate) region: u32,
    pub(crate) object: u64,
    pub(crate) place: u64,
    pub(crate) cell: u64,
}

/// A global that is one value: a number has its first value, and everything else is blank.
fn global_value<'p>(
    alloc: Global,
    kinds: &'p [Kind],
    ty: &Ty,
    initial: i64,
) -> Result<Object<'p>, Stop>
    ensures object { (layout : Layout) → kinds.now ≡ map held_kind layout → IfOk result (λ o. o ≡ kept_object (global_object_of layout (ty_of ty.now) None initial)) }
    ensures memory { IfErr result (λ stop. stop ≡ Cut Memory) }
{
    match ty {
        Ty::Int => number_object(alloc, kinds, initial),
        Ty::Unsigned => number_object(alloc, kinds, initial),
        Ty::Char => number_object(alloc, kinds, initial),
        Ty::Region => blank(alloc, kinds, 1),
        Ty::Struct(_) => blank(alloc, kinds, 1),
        Ty::Pointer(_, _) => blank(alloc, kinds, 1),
    }
}

fn global_object<'p>(
    alloc: Global,
    layouts: &'p Layouts,
    global: &Variable,
) -> Result<Object<'p>, Stop>
    ensures object { (structs : List Fields) → AreLaidOut structs layouts.now → IfOk result (λ o. o ≡ kept_object (global_object structs (global_of global.now))) }
    ensures memory { IfErr result (λ stop. stop ≡ Cut Memory) }
{
    let kinds = layouts.cells_of(&global.ty);
    match global.length {
        Some(count) => blank(alloc, kinds, count as u64),
        None => global_value(alloc, kinds, &global.ty, global.initial),
    }
}

/// Adds the globals' objects, in order.
fn push_globals<'p>(
    alloc: Global,
    objects: &mut Vec<Object<'p>>,
    layouts: &'p Layouts,
    globals: &[Variable],
) -> Result<(), Stop>
    ensures pushed { (structs : List Fields) → AreLaidOut structs layouts.now → OnOk result (objects.new.items ≡ objects.old.items ++ map kept_object (map (global_object structs) (map global_of globals.now))) }
    ensures memory { IfErr result (λ stop. stop ≡ Cut Memory) }
{
    for global in globals {
        objects.push(global_object(alloc, layouts, global)?)?;
    }
    Ok(())
}

/// Adds the string literals' objects, in order.
fn push_literals<'p>(
    alloc: Global,
    objects: &mut Vec<Object<'p>>,
    strings: &[Vec<u8>],
) -> Result<(), Stop>
    ensures pushed { OnOk result (objects.new.items ≡ objects.old.items ++ map kept_object (map literal (map bytes_of strings.now))) }
    ensures memory { IfErr result (λ stop. stop ≡ Cut Memory) }
{
    for string in strings {
        objects.push(literal(alloc, string.as_slice())?)?;
    }
    Ok(())
}

/// The index `number` elements on, or back.
fn moved(index: u64, direction: Direction, number: i64) -> i128
    ensures { result ≡ pos index +ℤ toward direction number }
{
    match direction {
        Direction::Forward => index as i128 + number as i128,
        Direction::Backward => index as i128 - number as i128,
    }
}

/// The trap of a check that fails.
fn unfit(note: Note) -> Trap
    ensures { result ≡ unfit note }
{
    match note {
        Note::Plain => Trap::Null,
        Note::SameRegion => Trap::SameRegion,
        Note::ParentPtr => Trap::ParentPtr,
        Note::Traditional => Trap::Traditional,
    }
}

#[tactic(auto, using(rc_values::proofs::Lists::update_set, rc_values::proofs::Lists::update_past))]
fn write_region(regions: &mut Vec<Region>, spot: Spot, values: &[Value])
    ensures { regions.new.items ≡ written spot (map value_of values.now) regions.old.items }
{
    if (spot.region as usize) < regions.len() {
        regions[spot.region as usize].write(spot.object, spot.place, values);
    }
}

#[tactic(auto, using(rc_values::proofs::Lists::update_set, rc_values::proofs::Lists::update_past))]
fn push_object<'p>(
    regions: &mut Vec<Region<'p>>,
    region: u32,
    object: Object<'p>,
) -> Result<(), Stop>
    ensures pushed { OnOk result (regions.new.items ≡ with_objects regions.old.items region (λ os. os ++ object.entry ∷ [])) }
    ensures unchanged { OnErr result (regions.new.items ≡ regions.old.items) }
    ensures memory { IfErr result (λ stop. stop ≡ Cut Memory) }
{
    if (region as usize) < regions.len() {
        regions[region as usize].push(object)?;
    }
    Ok(())
}

#[tactic(auto, using(rc_values::proofs::Lists::update_set, rc_values::proofs::Lists::update_past))]
fn kill_region(alloc: Global, regions: &mut Vec<Region>, region: u32)
    ensures { regions.new.items ≡ killed regions.old.items region }
{
    if (region as usize) < regions.len() {
        regions[region as usize].kill(alloc);
    }
}

/// Whether a region has a live child.
fn any_child(regions: &[Region], region: u32) -> bool
    ensures { result ≡ has_child region regions.now }
{
    for r in regions {
        if r.is_child(region) {
            return true;
        }
    }
    false
}

/// Whether a cell of a live region names the region.
fn region_names(r: &Region, region: u32) -> bool
    ensures { result ≡ r.now.alive && list_any (object_names region) r.now.objects }
{
    if !r.is_alive() {
        return false;
    }
    r.names(region)
}

/// Whether a cell of a live region but the region itself names it.
#[tactic(auto, using(crate::proofs::Lists::named_here, crate::proofs::Lists::named_on))]
fn any_named(regions: &[Region], region: u32) -> bool
    ensures { result ≡ is_named region 0 regions.now }
{
    for number in 0..regions.len() {
        if number != region as usize {
            if region_names(&regions[number], region) {
                return true;
            }
        }
    }
    false
}

impl<'p> Heap<'p> {
    /// Region 0 alone, with the globals and then the literals.
    pub fn new(alloc: Global, layouts: &'p Layouts, parts: &Parts) -> Result<Heap<'p>, Stop>
        ensures first { AreLaidOut (program_of parts.now).structs layouts.now → IfOk result (λ heap. heap ≡ kept_heap (first_heap (program_of parts.now))) }
        ensures memory { IfErr result (λ stop. stop ≡ Cut Memory) }
    {
        let mut objects = Vec::new(alloc);
        push_globals(alloc, &mut objects, layouts, parts.globals.as_slice())?;
        push_literals(alloc, &mut objects, parts.strings.as_slice())?;
        let mut regions = Vec::new(alloc);
        regions.push(Region::new(0, objects))?;
        Ok(Heap { regions })
    }

    pub(crate) fn is_live(&self, region: u32) -> bool
        ensures { result ≡ live self.now region }
    {
        match self.regions.get(region as usize) {
            None => false,
            Some(r) => r.is_alive(),
        }
    }

    fn parent(&self, region: u32) -> u32
        ensures { result ≡ parent self.now region }
    {
        match self.regions.get(region as usize) {
            None => 0,
            Some(r) => r.parent(),
        }
    }

    fn object(&self, region: u32, object: u64) -> Option<&Object<'p>>
        ensures { option_map (λ o. o.now) result ≡ object_at self.now region object }
    {
        match self.regions.get(region as usize) {
            None => None,
            Some(r) => r.object(object),
        }
    }

    fn count(&self, region: u32, object: u64) -> u64
        ensures { result ≡ count_in (object_at self.now region object) }
    {
        match self.object(region, object) {
            None => 0,
            Some(o) => o.count(),
        }
    }

    fn kinds(&self, region: u32, object: u64) -> &[Kind]
        ensures { result.now ≡ kinds_in (object_at self.now region object) }
    {
        match self.object(region, object) {
            None => &[],
            Some(o) => o.kinds(),
        }
    }

    /// Whether the value names no dead region.
    fn is_fresh(&self, value: Value) -> bool
        ensures { result ≡ is_fresh (live self.now) (value_of value) }
    {
        match value {
            Value::Number(_) => true,
            Value::Null => true,
            Value::Handle(r) => self.is_live(r),
            Value::Pointer(a) => self.is_live(a.region),
        }
    }

    /// Whether all values name no dead region.
    fn are_fresh(&self, values: &[Value]) -> bool
        ensures { result ≡ list_all (is_fresh (live self.now)) (map value_of values.now) }
    {
        let Some((first, rest)) = values.split_first() else {
            return true;
        };
        if !self.is_fresh(*first) {
            return false;
        }
        self.are_fresh(rest)
    }

    /// Whether region a is b, or above b's parent. A parent has the smaller number.
    fn is_above(&self, a: u32, b: u32) -> bool
        ensures { result ≡ is_above (parent self.now) a b }
    {
        let mut at = b;
        for _ in 0..b {
            if at == a {
                return true;
            }
            if at == 0 {
                return false;
            }
            at = self.parent(at);
        }
        at == a
    }

    /// Whether a region may be named in a cell with the annotation, in an object of the holder's region.
    fn suits(&self, note: Note, holder: u32, region: u32) -> bool
        ensures { result ≡ fits (parent self.now) note holder (Handle region) }
    {
        match note {
            Note::Plain => true,
            Note::SameRegion => region == holder,
            Note::ParentPtr => self.is_above(region, holder),
            Note::Traditional => region == 0,
        }
    }

    /// Whether the value may stand in a cell with the annotation, in an object of the holder's region.
    fn fits(&self, note: Note, holder: u32, value: Value) -> bool
        ensures { result ≡ fits (parent self.now) note holder (value_of value) }
    {
        match value {
            Value::Number(_) => true,
            Value::Null => true,
            Value::Handle(r) => self.suits(note, holder, r),
            Value::Pointer(a) => self.suits(note, holder, a.region),
        }
    }

    /// The region that a value is, after the null test, where it is alive.
    fn live_region(&self, line: u32, value: Value) -> Result<u32, Stop>
        ensures { Is (λ r. r) result (live_region self.now line (value_of value)) }
    {
        match value {
            Value::Handle(r) => {
                if self.is_live(r) {
                    Ok(r)
                } else {
                    Err(Stop::Stale(line))
                }
            }
            _ => Err(trap(Trap::Null, line)),
        }
    }

    /// The address that a value is, after the null test, where its region is alive.
    fn live_address(&self, line: u32, value: Value) -> Result<Address, Stop>
        ensures { Is address_of result (live_address self.now line (value_of value)) }
    {
        match value {
            Value::Pointer(a) => {
                if self.is_live(a.region) {
                    Ok(a)
                } else {
                    Err(Stop::Stale(line))
                }
            }
            _ => Err(trap(Trap::Null, line)),
        }
    }

    /// The cell of a place: the null test, whether the region is alive, and the bounds tests, from left
    /// to right.
    fn spot(&self, line: u32, target: &Target) -> Result<Spot, Stop>
        ensures { Is (λ spot. spot) result (spot_of self.now line target.now) }
    {
        let a = self.live_address(line, target.pointer())?;
        let element = a.index as i128 + target.shift() as i128;
        if !is_index(element, self.count(a.region, a.object)) {
            return Err(trap(Trap::Bounds, line));
        }
        if !target.is_in_range() {
            return Err(trap(Trap::Bounds, line));
        }
        let cell = target.cell()?;
        let size = self.kinds(a.region, a.object).len() as u64;
        let before = product_of_cells(element as u64, size)?;
        let place = sum_of_cells(before, cell)?;
        Ok(Spot {
            region: a.region,
            object: a.object,
            place,
            cell,
        })
    }

    /// The value of a place.
    pub fn load(&self, line: u32, target: &Target) -> Result<Value, Stop>
        ensures { Is value_of result (load self.now line target.now) }
    {
        let spot = self.spot(line, target)?;
        match self.object(spot.region, spot.object) {
            None => Ok(Value::Null),
            Some(o) => Ok(o.value(spot.place)),
        }
    }

    /// The values of `size` cells from a place on.
    pub fn load_all(
        &self,
        alloc: Global,
        line: u32,
        target: &Target,
        size: u64,
    ) -> Result<Values, Stop>
        ensures { Is (λ values. values) result (load_all self.now line target.now size) }
    {
        let spot = self.spot(line, target)?;
        match self.object(spot.region, spot.object) {
            None => Ok(Values::new(alloc)),
            Some(o) => o.part(alloc, spot.place, size),
        }
    }

    /// The annotation checks, in the order of the cells.
    fn check(&self, line: u32, holder: u32, kinds: &[Kind], values: &[Value]) -> Result<(), Stop>
        ensures { Is (λ _. tt) result (fitting self.now holder line kinds.now (map value_of values.now)) }
    {
        let Some((value, values)) = values.split_first() else {
            return Ok(());
        };
        let Some((kind, kinds)) = kinds.split_first() else {
            return Ok(());
        };
        let note = note_of(*kind);
        if !self.fits(note, holder, *value) {
            return Err(trap(unfit(note), line));
        }
        self.check(line, holder, kinds, values)
    }

    fn write(&mut self, spot: Spot, values: &[Value])
        ensures { self.new ≡ written spot (map value_of values.now) self.old }
    {
        write_region(&mut self.regions, spot, values);
    }

    /// The cells from a cell of an element on.
    #[tactic(auto, using(rc_values::proofs::Lists::drop_past))]
    fn kinds_from(&self, spot: Spot) -> &[Kind]
        ensures { result.now ≡ drop spot.cell (kinds_in (object_at self.now spot.region spot.object)) }
    {
        let kinds = self.kinds(spot.region, spot.object);
        if spot.cell as usize >= kinds.len() {
            return &[];
        }
        &kinds[spot.cell as usize..]
    }

    /// How many cells the element has from a cell on.
    fn room(&self, spot: Spot) -> usize
        ensures { result ≡ room self.now spot }
    {
        match self.object(spot.region, spot.object) {
            None => 0,
            Some(o) => o.kinds().len().saturating_sub(spot.cell as usize),
        }
    }

    /// Stores values in the cells from a place on, but none past the element.
    #[tactic(auto, using(rc_values::proofs::Lists::take_mapped))]
    pub fn store(&mut self, line: u32, target: &Target, values: &[Value]) -> Result<(), Stop>
        ensures stored { Does result (store self.old line target.now (map value_of values.now)) self.new }
        ensures unchanged { OnErr result (self.new ≡ self.old) }
    {
        let spot = self.spot(line, target)?;
        if !self.are_fresh(values) {
            return Err(Stop::Stale(line));
        }
        self.check(line, spot.region, self.kinds_from(spot), values)?;
        self.write(spot, front_of(values, self.room(spot)));
        Ok(())
    }

    /// Makes a region.
    pub fn make(&mut self, alloc: Global, line: u32, parent: u32, limit: u32) -> Result<u32, Stop>
        ensures made { Does result (made self.old line parent limit) self.new }
        ensures number { IfOk result (λ number. number ≡ length self.old) }
        ensures new_region { (w : KeptWorld) → w.heap ≡ self.old → w.regions ≡ limit → parent ≡ 0 → Leaves (λ number. Handle number) result self.new w (kept.new_region line w) }
        ensures unchanged { OnErr result (self.new ≡ self.old) }
    {
        let number = self.regions.len();
        if number > limit as usize {
            return Err(trap(Trap::Full, line));
        }
        self.regions.push(Region::new(parent, Vec::new(alloc)))?;
        Ok(number as u32)
    }

    /// Makes a child of a region.
    pub fn make_child(
        &mut self,
        alloc: Global,
        line: u32,
        value: Value,
        limit: u32,
    ) -> Result<u32, Stop>
        ensures new_subregion { (w : KeptWorld) → w.heap ≡ self.old → w.regions ≡ limit → Leaves (λ number. Handle number) result self.new w (kept.new_subregion line (value_of value) w) }
        ensures unchanged { OnErr result (self.new ≡ self.old) }
    {
        let parent = self.live_region(line, value)?;
        self.make(alloc, line, parent, limit)
    }

    /// How many objects a region has.
    fn objects(&self, region: u32) -> usize
        ensures { result ≡ length (objects self.now region) }
    {
        match self.regions.get(region as usize) {
            None => 0,
            Some(r) => r.len(),
        }
    }

    /// Allocates an array in a region.
    fn allocate_in(
        &mut self,
        alloc: Global,
        line: u32,
        region: u32,
        count: i64,
        kinds: &'p [Kind],
        limit: u32,
    ) -> Result<Value, Stop>
        ensures allocated { Does result (allocated self.old line limit count kinds.now region) self.new }
        ensures pointer { IfOk result (λ value. value_of value ≡ Pointer (record { region = region; object = length (objects self.old region); index = 0 })) }
        ensures unchanged { OnErr result (self.new ≡ self.old) }
    {
        if count < 0 {
            return Err(trap(Trap::Size, line));
        }
        let object = self.objects(region);
        if object >= limit as usize {
            return Err(trap(Trap::Full, line));
        }
        let new = blank(alloc, kinds, count as u64)?;
        push_object(&mut self.regions, region, new)?;
        Ok(Value::Pointer(Address {
            region,
            object: object as u64,
            index: 0,
        }))
    }

    /// Allocates an array.
    pub fn allocate(
        &mut self,
        alloc: Global,
        line: u32,
        value: Value,
        count: i64,
        kinds: &'p [Kind],
        limit: u32,
    ) -> Result<Value, Stop>
        ensures allocate { (w : KeptWorld) → w.heap ≡ self.old → w.blocks ≡ limit → (layout : Layout) → kinds.now ≡ map held_kind layout → Leaves value_of result self.new w (kept.allocate line (value_of value) count layout w) }
        ensures unchanged { OnErr result (self.new ≡ self.old) }
    {
        let region = self.live_region(line, value)?;
        self.allocate_in(alloc, line, region, count, kinds, limit)
    }

    /// The pointer `number` elements on, or back.
    pub fn step(
        &self,
        line: u32,
        pointer: Value,
        direction: Direction,
        number: i64,
    ) -> Result<Value, Stop>
        ensures { Is value_of result (step self.now line (value_of pointer) (toward direction number)) }
    {
        let a = self.live_address(line, pointer)?;
        let index = moved(a.index, direction, number);
        if index < 0 {
            return Err(trap(Trap::Bounds, line));
        }
        if index > self.count(a.region, a.object) as i128 {
            return Err(trap(Trap::Bounds, line));
        }
        Ok(Value::Pointer(Address {
            region: a.region,
            object: a.object,
            index: index as u64,
        }))
    }

    fn has_child(&self, region: u32) -> bool
        ensures { result ≡ has_child region self.now }
    {
        any_child(self.regions.as_slice(), region)
    }

    /// Whether a cell of another live region names the region.
    fn is_named(&self, region: u32) -> bool
        ensures { result ≡ is_named region 0 self.now }
    {
        any_named(self.regions.as_slice(), region)
    }

    /// Deletes a region, which these values must not name.
    pub fn delete(
        &mut self,
        alloc: Global,
        line: u32,
        value: Value,
        held: &Values,
    ) -> Result<(), Stop>
        ensures deleted { Does result (deleted self.old line held.now (value_of value)) self.new }
        ensures unchanged { OnErr result (self.new ≡ self.old) }
    {
        let region = self.live_region(line, value)?;
        if region == 0 {
            return Err(trap(Trap::Root, line));
        }
        if self.has_child(region) {
            return Err(trap(Trap::Subregion, line));
        }
        if self.is_named(region) {
            return Err(trap(Trap::Reference, line));
        }
        if held.name(region) {
            return Err(trap(Trap::Reference, line));
        }
        kill_region(alloc, &mut self.regions, region);
        Ok(())
    }
}
