//! The grammar of the whole language: its tokens and the table of operators, the lexer that cuts a text into
//! tokens, and which tokens spell which program, over tokens and trees as plain data.
//!
//! # Tokens and operators
//!
//! - [`Token`]: an identifier, a number, or a [`Fixed`] one, which is a keyword or a sign with one spelling;
//!   [`Lexeme`]: a token with its place in a text.
//! - [`keyword`], [`Fixed::text`]: how keywords and signs are spelled.
//! - [`prefix_of`], [`infix_of`], [`prefix_token`], [`infix_token`]: the operators of the tokens, and back;
//!   [`binding_of`]: how tightly each form binds.
//!
//! `specs/Tokens.antt` has tokens as plain data, how each keyword and sign is spelled, and the table of
//! operators.
//!
//! # The lexer
//!
//! [`lex`] gives a text's tokens with their places, or reports by a [`LexError`] why it has none.
//!
//! - `lexer`: how a text is cut into tokens, from left to right in one pass.
//! - `error`: why a text is refused.
//!
//! What is meant is said in `specs/`: `Lexing.antt` which tokens a text has, `Runs.antt` which runs of tokens
//! are too long, and `Refusals.antt` which texts are accepted and which refusal is true of any other.
//!
//! # The grammar
//!
//! - [`laws`]: reading finds exactly the spelled tree, the token that it refuses is the first with which no
//!   text goes on, tokens spell at most one tree, and the canonical tokens of a tree spell it; each is the
//!   contract of a function that does nothing.
//!
//! The definitions stand in `specs/`: `Grammar.antt` (which tokens spell which program), `Reading.antt`
//! (reading from left to right, as the parser does), `Printing.antt` (the canonical form of a tree),
//! `Places.antt` (where a program's parts stand), `Laws.antt`, and `Examples.antt` (worked readings and
//! refusals).
#![tactic(auto)]

mod error;
pub mod laws;
mod lexer;
mod token;

pub use error::LexError;
pub use lexer::lex;
pub use token::{
    Binding, Fixed, Lexeme, Token, binding_of, infix_of, infix_token, keyword, prefix_of,
    prefix_token,
};
