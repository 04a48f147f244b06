//! The statement view of code: code as statements, and statements grouped in blocks. A *part* is one item of the code
//! with its stack effect. A *tree* is a part with the trees that push its operands. A *phrase* is the text of a tree
//! (see pm_phrases). A *statement* is a tree that is no operand of another tree. Blocks show the jumps of statements as
//! IF, ELSE, WHILE, REPEAT and CASE.
#![tactic(auto)]

mod backs;
mod block;
mod close;
mod count;
mod grow;
mod items;
pub mod laws;
mod left;
mod line;
mod part;
mod pile;
mod show;
mod statement;
mod step;
pub mod worked;

pub use count::leaves_nothing;
pub use grow::statements;
pub use items::{Known, Layout, part_of};
pub use left::{Left, Role, is_reached};
pub use line::{Line, Word};
pub use part::{Callee, Leaves, Part, Place, Takes};
pub use pile::Pile;
pub use show::blocks;
pub use statement::{Leads, Statement};
