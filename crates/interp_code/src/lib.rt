//! Programs as flat code: a vector of nodes, each of which leads to lower places, with a hole at a location.
#![tactic(auto)]

mod calls;
mod code;
mod context;
mod declarations;
mod expressions;
mod fuse;
mod holes;
mod laws;
mod node;
mod program;
mod routine;
mod statements;

pub use code::Code;
pub use laws::plans_are_right;
pub use node::{
    AssignNode, BumpNode, CallNode, Callee, ClearNode, CreateNode, Given, Node, Operand,
    Superinstruction,
};
pub use program::flatten;
pub use routine::Routine;
