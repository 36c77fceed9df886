//! What everyone speaks of: the trees of a FORTRAN 77 program, its faults and answers, and, in
//! `specs/`, what a program means.
#![tactic(auto)]

pub mod answer;
pub mod expression;
pub mod fault;
pub mod last_stop;
pub mod limits;
pub mod name;
pub mod plain;
pub mod program;
pub mod refusal;
pub mod rule;
pub mod statement;
pub mod store;
pub mod table;
pub mod tree;

pub use answer::Answer;
pub use expression::{Access, Expr, Intrinsic, Operator, Prefix, RefId, Reference};
pub use fault::{End, Fault};
pub use last_stop::is_last_stop;
pub use limits::{LONGEST_NAME, MOST_EVENTS, MOST_NAMES, MOST_NESTED, MOST_STATEMENTS};
pub use name::Name;
pub use plain::{Action, Inert, PlainStatement};
pub use program::{Dimension, Program, Symbol, SymbolKind};
pub use refusal::Refusal;
pub use rule::Rule;
pub use statement::{Bounds, Declarator, Definition, DoHead, Item, Kind, Label, Line, Stmt};
pub use store::Store;
pub use table::Table;
pub use tree::{Arm, Node};
