//! Evaluation in blocks of instants: a flow is a row of words, one for each tick of its clock in the block.
//!
//! - [`block_outputs`]: the outputs of a whole program at a table, or its first fault, as
//!   `lueval::whole_outputs` reports them.
//! - [`row_at`]: the row of a flow.
//! - [`show_part`], [`clear_others`], [`empty_columns`]: the columns of main variables, which a block of a
//!   part puts out.
//! - [`Board`]: the rows of a block, of a whole program or of a part of one.
//!
//! - `board`, `block`: all rows, and the steps of one block; `closing`, `stage`: whether what a cycle
//!   supposed is right, and where all words of a flow are found.
//! - `show`, `reported`, `run`: statuses at a block's instants; columns of them; block after block.
//!
//! The words of one flow are those of `lublock_kernels`.
#![tactic(auto)]

mod block;
mod board;
mod closing;
mod reported;
mod run;
mod show;
mod stage;

pub use board::Board;
pub use closing::row_at;
pub use lueval_lines::empty_columns;
pub use reported::{clear_others, show_part};
pub use run::block_outputs;
