// Facts of all functions.
ghost use Rattle.std.specs.Prelude.{◌≡◌, ◌<◌, [], length, get_or};
ghost use Rattle.rc_facts.specs.Flow.{no_set};
ghost use Rattle.rc_edges.specs.Inferred.{family_of};

use rc_facts::FactSet;
use rc_graph::Graph;

/// What is known at the heads, the entries and the exits of functions, by the functions' numbers. The
/// facts of an entry are on the function's hidden copies, those of an exit on these and the result, and
/// those before a point on all variables before the result, whose number is free there.
#[derive(Drop)]
pub struct Facts {
    /// The graph of each function.
    pub graphs: Vec<Graph>,
    /// Of each function a set before each of its points: before one that is no head a set over no
    /// variables.
    pub points: Vec<Vec<FactSet>>,
    /// Of each function a set at its entry.
    pub entries: Vec<FactSet>,
    /// Of each function a set at its exit.
    pub exits: Vec<FactSet>,
}

impl Facts {
    /// What is known at the entry of a function.
    pub fn entry(&self, function: u32) -> &FactSet
        requires { function < length (family_of self.now).entries }
        ensures { result.now ≡ get_or (family_of self.now).entries function no_set }
    {
        &self.entries[function as usize]
    }

    /// What is known at the exit of a function.
    pub fn exit(&self, function: u32) -> &FactSet
        requires { function < length (family_of self.now).exits }
        ensures { result.now ≡ get_or (family_of self.now).exits function no_set }
    {
        &self.exits[function as usize]
    }
}
