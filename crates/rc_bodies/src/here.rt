// Where the walk over statements stands.
ghost use Rattle.std.specs.Prelude.{◌≡◌, ◌++◌, length, IfOk, IfErr, OnOk};
ghost use Rattle.rc_deletes.specs.Scopes.{Scope};
ghost use Rattle.rc_deletes.specs.Statements as rule;
ghost use Rattle.rc_defined.specs.Contexts.{scope_of};
ghost use Rattle.rc_bodies.specs.Here.{here_of, outer_of};

use rc_core::ty::Ty;
use rc_rules::Meaning;
use rc_scope::Scopes;
use rc_typed_values::Stop;

/// Where a node of a function stands.
#[derive(Drop)]
pub struct Here {
    /// What names stand for there.
    pub names: Scopes<Meaning>,
    /// The types of the function's locals so far.
    pub locals: Vec<Ty>,
    /// The number of the first local of its scope.
    pub first: u32,
    /// The strings of the text so far.
    pub strings: Vec<Vec<u8>>,
}

/// What a scope puts back at its end.
#[derive(Clone, Copy)]
pub struct Outer {
    /// How many names there were before it.
    pub depth: usize,
    /// The first local of the scope around it.
    pub first: u32,
}

impl Here {
    /// The number of the local that comes next.
    pub(crate) fn next_local(&self) -> Result<u32, Stop>
        ensures ok { IfOk result (λ n. n ≡ length (here_of self.now).locals) }
        ensures err { IfErr result (λ s. s ≡ Stop.Memory) }
    {
        if self.locals.len() < 4294967295 {
            return Ok(self.locals.len() as u32);
        }
        Err(Stop::Memory)
    }

    /// What a scope that begins here puts back at its end.
    pub fn outer(&self) -> Outer
        ensures { result ≡ outer_of self.now }
    {
        Outer {
            depth: self.names.len(),
            first: self.first,
        }
    }

    /// Begins a scope.
    pub(crate) fn enter(&mut self) -> Result<(), Stop>
        ensures ok { OnOk result (here_of self.new ≡ rule.inside (here_of self.old)) }
        ensures err { IfErr result (λ s. s ≡ Stop.Memory) }
    {
        self.first = self.next_local()?;
        Ok(())
    }

    /// Ends a scope, where no names but its own came inside those before it.
    pub fn leave(&mut self, outer: Outer)
        ensures { (before : Here) → outer ≡ outer_of before → (own : Scope) → scope_of self.old.names ≡ own ++ scope_of before.names → here_of self.new ≡ rule.outside (here_of before) (here_of self.old) }
    {
        self.names.leave(outer.depth);
        self.first = outer.first;
    }
}
