//! Trees and programs of the datapath language, and what a program means.
//!
//! The evaluator by trees, `Program::start`, `Program::mean` and `Program::run`, is the reference: it computes exactly
//! what the definitions say of a program. `audit` alone runs it, to judge what others ran. Every other mode runs the
//! code that a program is compiled to.
#![tactic(auto)]

mod blocks;
mod command;
mod env;
mod mean;
mod printing;
mod program;
mod progress;
mod start;
mod tree;
mod value;
mod words;

pub use ccp_base::Op2;
pub use env::{Effect, Env, Mean, StartFault};
pub use printing::print_tree;
pub use program::{Block, Cmd, Decl, Expr, Program, Var};
pub use tree::{Parts, Source, Tree, take_apart};
pub use words::is_name_shaped;
