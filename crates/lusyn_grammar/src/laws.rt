//! What holds of reading and printing, over all tokens and all trees, as contracts of functions that do
//! nothing.

ghost use Rattle.lusyn_grammar.specs.Laws.{ReadingLaw, OneTreeLaw, PrintingLaw, PrintableLaw, RefusalLaw, BeginningLaw};
ghost use Rattle.lusyn_grammar.specs.Examples.{ExamplesLaw};

/// Reading gives a tree exactly where the tokens spell it.
pub fn reading_law()
    ensures { ReadingLaw }
{}

/// No tokens spell two trees.
pub fn one_tree_law()
    ensures { OneTreeLaw }
{}

/// No text goes on with a token that is refused.
pub fn refusal_law()
    ensures { RefusalLaw }
{}

/// What stands before a refused token is a prefix of a text. So a refused token is the first with which no
/// text goes on.
pub fn beginning_law()
    ensures { BeginningLaw }
{}

/// The canonical tokens of a printable tree spell it.
pub fn printing_law()
    ensures { PrintingLaw }
{}

/// Every tree that is spelled is printable.
pub fn printable_law()
    ensures { PrintableLaw }
{}

/// Worked readings of expressions and of one program, and worked refusals.
pub fn examples_law()
    ensures { ExamplesLaw }
{}
