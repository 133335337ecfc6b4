// What holds of the trees of files.
ghost use Rattle.std.specs.Prelude.{◌≤◌, List, length};
ghost use Rattle.rc_base.specs.Limits.{most_words};
ghost use Rattle.rc_syntax.specs.Tree.{Tree as WrittenTree};
ghost use Rattle.rc_syntax.specs.Grammar.{Derives, Placed, node, Text};
ghost use Rattle.rc_deletes.specs.Limits.{AreShort};
ghost use Rattle.rc_linking.specs.Limits.{IsFileLimited};
ghost use Rattle.rc_linking.specs.Examples.{ExamplesCompute};

/// The tree of at most 1,048,576 words, of which no string literal has more than 1,048,576 bytes, keeps
/// what the tree of a file has to keep.
pub fn a_text_is_limited()
    ensures { (tree : WrittenTree) (words : List Placed) → Derives words (node Text tree.items) → length words ≤ most_words → AreShort words → IsFileLimited tree }
{}

/// Seven small files have the answers, alone and together, that they should; the definitions are run
/// for it.
pub fn examples_compute()
    ensures { ExamplesCompute }
{}
