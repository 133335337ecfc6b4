// Where the walk over items stands.
ghost use Rattle.std.specs.Prelude.{◌≤◌};
ghost use Rattle.rc_base.specs.Limits.{most_global_cells};

use rc_bodies::Here;
use rc_core::ty::Ty;
use rc_rules::Meaning;
use rc_scope::Scopes;
use std::alloc::Global;
use std::mem;

/// Where an item stands.
#[derive(Drop)]
pub(crate) struct Outside {
    /// What names stand for there.
    pub(crate) names: Scopes<Meaning>,
    /// How many structs were defined so far.
    pub(crate) structs: u32,
    /// How many globals there are so far.
    pub(crate) globals: u32,
    /// How many cells these have.
    pub(crate) cells: u64,
    /// How many functions were defined so far.
    pub(crate) functions: u32,
    /// The strings of the text so far.
    pub(crate) strings: Vec<Vec<u8>>,
    ghost few: { cells ≤ most_global_cells },
}

impl Outside {
    ghost use Rattle.std.specs.Prelude.{◌≡◌, []};
    ghost use Rattle.rc_deletes.specs.Items as rule;
    ghost use Rattle.rc_bodies.specs.Here.{here_of};
    ghost use Rattle.rc_items.specs.Outside.{outside_of};

    /// Where the parameters of a function begin. The names and the strings go there.
    pub(crate) fn enter(&mut self, alloc: Global) -> Here
        ensures here { here_of result ≡ rule.before_params (outside_of self.old) }
        ensures rest { outside_of self.new ≡ record (outside_of self.old) { names = []; strings = [] } }
    {
        Here {
            names: mem::replace(&mut self.names, Scopes::new(alloc)),
            locals: Vec::new(alloc),
            first: 0,
            strings: mem::replace(&mut self.strings, Vec::new(alloc)),
        }
    }

    /// Takes the names and the strings back where a function ends, and gives its locals.
    pub(crate) fn leave(&mut self, end: Here) -> Vec<Ty>
        ensures locals { result ≡ end.locals }
        ensures rest { outside_of self.new ≡ record (outside_of self.old) { names = (here_of end).names; strings = (here_of end).strings } }
    {
        let Here {
            names,
            locals,
            first: _,
            strings,
        } = end;
        self.names = names;
        self.strings = strings;
        locals
    }
}
