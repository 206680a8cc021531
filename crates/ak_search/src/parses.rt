ghost use Rattle.std.specs.Prelude.{◌≡◌, ◌⊎◌, ◌<◌, length, Some, None, IfOk, OnOk, IfErr};
ghost use Rattle.ak_search.specs.Grammar.{ReadsSearch, first_fault, place_of, tokens, pieces_in};
ghost use Rattle.ak_search.specs.Trees.{Tree, pieces_of};
ghost use Rattle.ak_search.specs.declared.faults.SearchFault.TheVariants as faults;

use crate::SearchFault;
use crate::checks::first_fault;
use crate::source_chars::source_chars_of;
use crate::tokens::{Token, tokens_of};
use std::alloc::Global;

/// An expression that was read. It is kept as its pieces, in the order in which they are written.
#[derive(Debug, Drop)]
pub struct Expr {
    pub(crate) tokens: Vec<Token>,
}

/// The expression of a text, or the fault with the least place. An empty text is the expression of every card.
pub fn parse(alloc: Global, text: &str) -> Result<Expr, SearchFault>
    // The text has the tree of the expression.
    ensures tree { IfOk result (λ expr. (tree : Tree) × ReadsSearch text.now tree × (pieces_in expr.tokens.items ≡ pieces_of tree)) }

    // A text that has a tree is refused only if memory runs out.
    ensures only { (tree : Tree) → ReadsSearch text.now tree → IfErr result (λ fault. fault ≡ faults.Memory) }

    // Any other refusal is the first fault.
    ensures fault { IfErr result (λ fault. (fault ≡ faults.Memory) ⊎ (first_fault text.now ≡ Some fault)) }

    // Its place is inside the text.
    ensures within { IfErr result (λ fault. (fault ≡ faults.Memory) ⊎ (place_of fault < length text.now)) }
{
    read_search(alloc, text)
}

/// The tokens of the text if they have no fault, else the first fault.
fn read_search(alloc: Global, text: &str) -> Result<Expr, SearchFault>
    ensures none { OnOk result (first_fault text.now ≡ None) }
    ensures tokens { IfOk result (λ expr. expr.tokens.items ≡ tokens text.now) }
    ensures fault { IfErr result (λ fault. (fault ≡ faults.Memory) ⊎ (first_fault text.now ≡ Some fault)) }
{
    let source_chars = source_chars_of(alloc, text)?;
    let tokens = tokens_of(alloc, &source_chars)?;
    match first_fault(&tokens) {
        Some(fault) => Err(fault),
        None => Ok(Expr { tokens }),
    }
}
