// Sets of live regions.
ghost use Rattle.std.specs.Prelude.{◌≡◌, ◌≢◌, ◌≤◌, ◌↔◌, ◌&&◌, ℕ, None, false, not, length, All, Contains, IsTrue, slice_set};
ghost use Rattle.rc_registry.specs.Registries.{HasUnmarkedChild, IsApart, IsMember, count_in, has_child, is_marked, member_in, parent_among};
ghost use Rattle.rc_registry.specs.Groups.{AreClear, HasChildOutside, HasUnmarkedAmong};
ghost use Rattle.rc_store.specs.Sets.{without};

use crate::registry::Registry;

/// Whether a region of a set is the parent of a live one without a mark.
fn has_unmarked_child(registry: &Registry, set: &[u32], marks: &[bool]) -> bool
    requires live { All (IsMember registry.now.members) set.now }
    requires not_root { ¬ Contains set.now 0 }
    requires room { registry.now.slots ≤ length marks.now }
    ensures { IsTrue result ↔ HasUnmarkedAmong registry.now.members set.now marks.now }
{
    for region in set {
        if registry.has_unmarked_child(*region, marks) {
            return true;
        }
    }
    false
}

/// Whether a live region that isn't of a set has one of the set as its parent. It looks at the children
/// of the set alone. Each slot has room for a mark, and none has one, before and after.
pub fn has_child_outside(registry: &Registry, set: &[u32], marks: &mut [bool]) -> bool
    requires live { All (IsMember registry.now.members) set.now }
    requires not_root { ¬ Contains set.now 0 }
    requires room { registry.now.slots ≤ length marks.old }
    requires clear { AreClear marks.old }
    ensures child { IsTrue result ↔ HasChildOutside registry.now.members set.now }
    ensures clear { AreClear marks.new }
{
    registry.set_marks(set, true, marks);
    let found = has_unmarked_child(registry, set, marks);
    registry.set_marks(set, false, marks);
    found
}

/// Whether a region is live, has a mark and has no child. Region 0 has no mark.
fn may_go(registry: &Registry, region: u32, marks: &[bool]) -> bool
    requires root { is_marked registry.now.members marks.now 0 ≡ false }
    requires room { registry.now.slots ≤ length marks.now }
    ensures { result ≡ is_marked registry.now.members marks.now region && not (has_child registry.now.members region) }
{
    registry.is_marked(region, marks) && !registry.has_child(region)
}

/// Takes a live region out that has no child and to which no reference is counted, and answers its
/// parent.
fn take_out(registry: &mut Registry, region: u32, marks: &mut [bool]) -> u32
    requires live { IsMember registry.old.members region }
    requires not_root { region ≢ 0 }
    requires childless { has_child registry.old.members region ≡ false }
    requires unnamed { count_in registry.old region ≡ 0 }
    requires room { registry.old.slots ≤ length marks.old }
    ensures parent { result ≡ parent_among registry.old.members region }
    ensures members { registry.new.members ≡ slice_set registry.old.members region None }
    ensures counts { (n : ℕ) → count_in registry.new n ≡ count_in registry.old n }
    ensures slots { registry.new.slots ≡ registry.old.slots }
    ensures marks { marks.new ≡ slice_set marks.old (member_in registry.old.members region).slot false }
{
    let parent = registry.parent(region);
    marks[registry.slot(region) as usize] = false;
    registry.remove(region);
    parent
}

/// Takes all regions of a set out, in whatever order they stand there. They are live, none is region
/// 0, no child of theirs is outside, and no reference to one is counted. It takes no memory, and as
/// many turns as there are regions in the set: where a region goes, its parent may go, too. Each region
/// had a slot of its own.
pub fn remove_all(registry: &mut Registry, set: &[u32], marks: &mut [bool])
    requires live { All (IsMember registry.old.members) set.now }
    requires not_root { ¬ Contains set.now 0 }
    requires closed { ¬ HasChildOutside registry.old.members set.now }
    requires unnamed { All (λ r. count_in registry.old r ≡ 0) set.now }
    requires room { registry.old.slots ≤ length marks.old }
    requires clear { AreClear marks.old }
    ensures members { registry.new.members ≡ without set.now registry.old.members }
    ensures counts { (n : ℕ) → count_in registry.new n ≡ count_in registry.old n }
    ensures slots { registry.new.slots ≡ registry.old.slots }
    ensures clear { AreClear marks.new }
    ensures apart { IsApart registry.old.members registry.old.slots }
{
    registry.set_marks(set, true, marks);
    for member in set {
        let mut region = *member;
        'up: while may_go(registry, region, marks) {
            region = take_out(registry, region, marks);
        }
    }
}
