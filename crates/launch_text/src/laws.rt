//! What is printed is read again, and worked rows of the words.
ghost use Rattle.std.specs.Prelude.{ℕ, List};
ghost use Rattle.launch_text.specs.Grammar.{IsLine};
ghost use Rattle.launch_text.specs.Printed.{line_text};
ghost use Rattle.launch_text.specs.Rows.{WordRows};
ghost use Rattle.launch_text.specs.declared.tree.Tree.{Tree};

/// The line that `print` writes of a tree for which some text stands, stands for this tree. So `parse` gives the tree
/// again, where the line has at most 65,536 bytes and memory is found.
pub fn printed_again()
    ensures { (text : List ℕ) (tree : Tree) → IsLine text tree → IsLine (line_text tree) tree }
{}

/// Of which words some texts are: a link, a value in quotes and with a backslash, caps of two words, a reference with a pad.
#[tactic(auto, using(crate::proofs::Rows::word_rows))]
pub fn word_rows()
    ensures { WordRows }
{}
