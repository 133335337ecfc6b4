// A file that nothing refuses by itself.
ghost use Rattle.std.specs.Prelude.{◌≡◌};
ghost use Rattle.rc_syntax.specs.Shape.{tree_of};
ghost use Rattle.rc_linking.specs.Limits.{IsFileLimited};
ghost use Rattle.rc_linking.specs.Stubs.{stubbed};
ghost use Rattle.rc_units.specs.Units.{HasProgramOn, IsLinkable};

use rc_syntax::tree::Tree;
use std::marker::Model;

/// A file that is a part of a program: with a stub for each function that it only declares, and for
/// `main` where it declares none, nothing refuses it. Contracts see its tree.
#[derive(Drop)]
pub struct Unit {
    tree: Tree,
}

impl Model for Unit {
    ghost use Rattle.rc_syntax.specs.contracts.tree.Expr as expr;
    ghost use Rattle.rc_syntax.specs.contracts.tree.Stmt as stmt;
    ghost use Rattle.rc_syntax.specs.declared.tree.Tree.{Tree as CodeTree};
    ghost use Rattle.rc_syntax.specs.Shape.{tree_of};
    ghost use Rattle.rc_units.specs.Units.{IsLinkable};
    ghost use Rattle.std.specs.Coded.{codes};

    ghost Value = { CodeTree };

    ghost coded = { Prim.hlevel (codes, expr.the_row.coded, stmt.the_row.coded) };

    ghost view = { λ u. u.tree };

    ghost invariant = { λ u. IsLinkable (tree_of u.tree) };
}

impl Unit {
    /// The tree of the file, without its stubs.
    pub fn tree(&self) -> &Tree
        ensures tree { result.now ≡ self.now }
        ensures linkable { IsLinkable (tree_of self.now) }
    {
        &self.tree
    }
}

/// The unit of a tree of which its stubs were found to be typed with it.
pub(crate) fn without_stubs(whole: Tree, tree: &Tree) -> Unit
    requires limited { IsFileLimited (tree_of tree.now) }
    requires whole { tree_of whole ≡ stubbed tree.now.last (tree_of tree.now) }
    requires typed { HasProgramOn tree.now.last (tree_of tree.now) }
    ensures tree { tree_of result ≡ tree_of tree.now }
    ensures line { result.last ≡ whole.last }
{
    let Tree { mut items, last } = whole;
    items.truncate(tree.items.len());
    Unit {
        tree: Tree { items, last },
    }
}
