// What holds of the grammar, each as the contract of a function that does nothing.

ghost use Rattle.std.specs.Prelude.{ℕ, ◌≡◌, List, All};
ghost use Rattle.rc_syntax.specs.Tokens.{Token};
ghost use Rattle.rc_syntax.specs.Words.{Words};
ghost use Rattle.rc_syntax.specs.Tree.{Expr, Item};
ghost use Rattle.rc_syntax.specs.Grammar.{Text, Level, Unary, Placed, node, Derives, Begins, placed};
ghost use Rattle.rc_syntax.specs.printing.Printing.{IsPrintable};
ghost use Rattle.rc_syntax.specs.printing.Unplaced.{words_at, ReadBack};
ghost use Rattle.rc_syntax.specs.printing.TreeWords.{items_words};

/// Words have at most one tree: as a text, as an expression, and as a unary.
pub fn words_have_one_tree()
    ensures text { (ws : List Placed) (a b : List Item) → Derives ws (node Text a) → Derives ws (node Text b) → a ≡ b }
    ensures expression { (ws : List Placed) (a b : Expr) → Derives ws (node (Level 0) a) → Derives ws (node (Level 0) b) → a ≡ b }
    ensures unary { (ws : List Placed) (a b : Expr) → Derives ws (node Unary a) → Derives ws (node Unary b) → a ≡ b }
{}

/// All beginnings of the same words give the last of them the same depth and the same reach.
pub fn words_have_one_depth()
    ensures text { (ws : List Placed) (d e r s : ℕ) → Begins ws Text d r → Begins ws Text e s → (d ≡ e) × (r ≡ s) }
    ensures expression { (ws : List Placed) (d e r s : ℕ) → Begins ws (Level 0) d r → Begins ws (Level 0) e s → (d ≡ e) × (r ≡ s) }
    ensures unary { (ws : List Placed) (d e r s : ℕ) → Begins ws Unary d r → Begins ws Unary e s → (d ≡ e) × (r ≡ s) }
{}

/// Words that are a tree, printed with a single blank between each two, are the words of that text,
/// and there too they are the tree, but for places (`words`). So are the words that the tree is printed
/// with, in declarations of one declarator and the parentheses that levels ask for (`tree`), and those
/// of every text's tree (`text`).
pub fn printed_trees_are_read()
    ensures words { (ws : List Placed) (items : List Item) → Derives ws (node Text items) → All IsPrintable (words_at ws) → ReadBack (words_at ws) items }
    ensures tree { (ws : List Placed) (items : List Item) → Derives ws (node Text items) → All IsPrintable (words_at ws) → ReadBack (items_words items) items }
    ensures text { (text : List ℕ) (tokens : List Token) (items : List Item) → Words text tokens → Derives (placed 0 tokens) (node Text items) → ReadBack (items_words items) items }
{}
