// Two items that don't go together.
ghost use Rattle.std.specs.Prelude.{◌≡◌, map};
ghost use Rattle.rc_linking.specs.Clash as clash;
ghost use Rattle.rc_linking.specs.Clash.{any};
ghost use Rattle.rc_linking.specs.Links as links;
ghost use Rattle.rc_clashes.specs.Standing.{covers, name_of};
ghost use Rattle.rc_clashes.specs.Kept.{items_of};
ghost use Rattle.rc_syntax.specs.Shape.{item_of};

use crate::words::{Head, same_fields, same_head, same_name};
use rc_syntax::tree::{Item, Name};

pub(crate) fn name_of(item: &Item) -> &Name
    ensures { result.now ≡ name_of (item_of item.now) }
{
    match item {
        Item::Struct(_, name, _) => name,
        Item::Global(_, _, name, _, _) => name,
        Item::Function(_, _, _, name, _, _) => name,
    }
}

pub(crate) fn line_of(item: &Item) -> u32
    ensures { result ≡ links.line_of (item_of item.now) }
{
    match item {
        Item::Struct(at, _, _) => at.line,
        Item::Global(at, _, _, _, _) => at.line,
        Item::Function(at, _, _, _, _, _) => at.line,
    }
}

/// Whether a struct has other fields than that of an earlier file, or a function another head.
fn disagrees(earlier: &Item, later: &Item) -> bool
    ensures { result ≡ clash.disagrees (item_of earlier.now) (item_of later.now) }
{
    match (earlier, later) {
        (Item::Struct(_, name, fields), Item::Struct(_, other, others)) => {
            same_name(name, other) && !same_fields(fields, others)
        }
        (
            Item::Function(_, deletes, gives, name, params, _),
            Item::Function(_, also, given, other, others, _),
        ) => {
            let head = Head {
                deletes: *deletes,
                gives,
                params,
            };
            let second = Head {
                deletes: *also,
                gives: given,
                params: others,
            };
            same_name(name, other) && !same_head(&head, &second)
        }
        (_, _) => false,
    }
}

/// Whether a function is defined twice, or a name is a global and something else.
fn doubles(earlier: &Item, later: &Item) -> bool
    ensures { result ≡ clash.doubles (item_of earlier.now) (item_of later.now) }
{
    match (earlier, later) {
        (Item::Function(_, _, _, name, _, Some(_)), Item::Function(_, _, _, other, _, Some(_))) =>
            same_name(name, other),
        (Item::Function(_, _, _, name, _, _), Item::Global(_, _, other, _, _)) => {
            same_name(name, other)
        }
        (Item::Global(_, _, name, _, _), Item::Global(_, _, other, _, _)) => {
            same_name(name, other)
        }
        (Item::Global(_, _, name, _, _), Item::Function(_, _, _, other, _, _)) => {
            same_name(name, other)
        }
        (_, _) => false,
    }
}

/// Whether what clashes with the second item clashes with the first.
fn covers(first: &Item, second: &Item) -> bool
    ensures { result ≡ covers (item_of first.now) (item_of second.now) }
{
    match (first, second) {
        (Item::Struct(_, name, fields), Item::Struct(_, other, others)) => {
            same_name(name, other) && same_fields(fields, others)
        }
        (Item::Function(_, _, _, _, _, None), Item::Function(_, _, _, _, _, Some(_))) => false,
        (
            Item::Function(_, deletes, gives, name, params, _),
            Item::Function(_, also, given, other, others, _),
        ) => {
            let head = Head {
                deletes: *deletes,
                gives,
                params,
            };
            let second = Head {
                deletes: *also,
                gives: given,
                params: others,
            };
            same_name(name, other) && same_head(&head, &second)
        }
        (Item::Global(_, _, name, _, _), Item::Global(_, _, other, _, _)) => {
            same_name(name, other)
        }
        (_, _) => false,
    }
}

pub(crate) fn disagrees_with_any(kept: &[&Item], item: &Item) -> bool
    ensures { result ≡ any (λ i. clash.disagrees i (item_of item.now)) (items_of kept.now) }
{
    for earlier in kept {
        if disagrees(earlier, item) {
            return true;
        }
    }
    false
}

pub(crate) fn doubles_any(kept: &[&Item], item: &Item) -> bool
    ensures { result ≡ any (λ i. clash.doubles i (item_of item.now)) (items_of kept.now) }
{
    for earlier in kept {
        if doubles(earlier, item) {
            return true;
        }
    }
    false
}

pub(crate) fn is_covered(kept: &[&Item], item: &Item) -> bool
    ensures { result ≡ any (λ i. covers i (item_of item.now)) (items_of kept.now) }
{
    for earlier in kept {
        if covers(earlier, item) {
            return true;
        }
    }
    false
}
