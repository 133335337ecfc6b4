// Types and heads that are written in the same words.
ghost use Rattle.std.specs.Prelude.{◌≡◌, ◌&&◌, map};
ghost use Rattle.std.specs.Str.{bytes_eq};
ghost use Rattle.rc_deletes.specs.Items.{same_bool};
ghost use Rattle.rc_linking.specs.Clash as clash;
ghost use Rattle.rc_syntax.specs.Shape as written;

use rc_syntax::tree::{Base, Field, Name, Note, Param, TypeName};

pub(crate) fn same_name(a: &Name, b: &Name) -> bool
    ensures { result ≡ bytes_eq a.now.text b.now.text }
{
    a.text.as_slice() == b.text.as_slice()
}

fn same_star(a: Note, b: Note) -> bool
    ensures { result ≡ clash.same_star a b }
{
    match (a, b) {
        (Note::Plain, Note::Plain) => true,
        (Note::SameRegion, Note::SameRegion) => true,
        (Note::ParentPtr, Note::ParentPtr) => true,
        (Note::Traditional, Note::Traditional) => true,
        (_, _) => false,
    }
}

#[tactic(auto, using(crate::proofs::Alike::stars_apart))]
fn same_stars(a: &[Note], b: &[Note]) -> bool
    ensures { result ≡ clash.same_stars a.now b.now }
{
    if a.len() != b.len() {
        return false;
    }
    for i in 0..a.len() {
        if !same_star(a[i], b[i]) {
            return false;
        }
    }
    true
}

fn same_base(a: &Base, b: &Base) -> bool
    ensures { result ≡ clash.same_base a.now b.now }
{
    match (a, b) {
        (Base::Int(_), Base::Int(_)) => true,
        (Base::Unsigned(_), Base::Unsigned(_)) => true,
        (Base::Char(_), Base::Char(_)) => true,
        (Base::Region(_), Base::Region(_)) => true,
        (Base::Struct(_, name), Base::Struct(_, other)) => same_name(name, other),
        (_, _) => false,
    }
}

fn same_type(a: &TypeName, b: &TypeName) -> bool
    ensures { result ≡ clash.same_written (written.type_of a.now) (written.type_of b.now) }
{
    if !same_base(&a.base, &b.base) {
        return false;
    }
    same_stars(&a.stars, &b.stars)
}

fn same_length(a: Option<u32>, b: Option<u32>) -> bool
    ensures { result ≡ clash.same_length a b }
{
    match (a, b) {
        (None, None) => true,
        (Some(a), Some(b)) => a == b,
        (_, _) => false,
    }
}

fn same_field(a: &Field, b: &Field) -> bool
    ensures { result ≡ clash.same_field (written.field_of a.now) (written.field_of b.now) }
{
    if !same_name(&a.name, &b.name) {
        return false;
    }
    if !same_type(&a.type_name, &b.type_name) {
        return false;
    }
    same_length(a.length, b.length)
}

#[tactic(auto, using(crate::proofs::Alike::fields_apart))]
pub(crate) fn same_fields(a: &[Field], b: &[Field]) -> bool
    ensures { result ≡ clash.same_fields (map written.field_of a.now) (map written.field_of b.now) }
{
    if a.len() != b.len() {
        return false;
    }
    for i in 0..a.len() {
        if !same_field(&a[i], &b[i]) {
            return false;
        }
    }
    true
}

fn same_param(a: &Param, b: &Param) -> bool
    ensures { result ≡ clash.same_param (written.param_of a.now) (written.param_of b.now) }
{
    same_type(&a.type_name, &b.type_name)
}

#[tactic(auto, using(crate::proofs::Alike::params_apart))]
fn same_params(a: &[Param], b: &[Param]) -> bool
    ensures { result ≡ clash.same_params (map written.param_of a.now) (map written.param_of b.now) }
{
    if a.len() != b.len() {
        return false;
    }
    for i in 0..a.len() {
        if !same_param(&a[i], &b[i]) {
            return false;
        }
    }
    true
}

fn same_result(a: &Option<TypeName>, b: &Option<TypeName>) -> bool
    ensures { result ≡ clash.same_result (written.mapped written.type_of a.now) (written.mapped written.type_of b.now) }
{
    match (a, b) {
        (None, None) => true,
        (Some(a), Some(b)) => same_type(a, b),
        (_, _) => false,
    }
}

/// Whether both are true, or both false.
fn same_bool(a: bool, b: bool) -> bool
    ensures { result ≡ same_bool a b }
{
    if a {
        return b;
    }
    !b
}

/// What a function is called with, and what it gives.
#[derive(Drop)]
pub(crate) struct Head<'a> {
    pub(crate) deletes: bool,
    pub(crate) gives: &'a Option<TypeName>,
    pub(crate) params: &'a [Param],
}

pub(crate) fn same_head(a: &Head<'_>, b: &Head<'_>) -> bool
    ensures { result ≡ same_bool a.now.deletes b.now.deletes && (clash.same_result (written.mapped written.type_of a.now.gives.now) (written.mapped written.type_of b.now.gives.now) && clash.same_params (map written.param_of a.now.params.now) (map written.param_of b.now.params.now)) }
{
    if !same_bool(a.deletes, b.deletes) {
        return false;
    }
    if !same_result(a.gives, b.gives) {
        return false;
    }
    same_params(a.params, b.params)
}
