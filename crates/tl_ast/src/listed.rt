//! A port with a list of expressions behind it, while it is read.
use crate::tree::TestExpr;
use tb_base::{Name, Seq};

/// What stands behind a port's first so many brackets: the port's name, and the list in the last one.
#[derive(Drop)]
pub struct Listed {
    pub name: Name,
    pub values: Seq<TestExpr>,
    /// The number, where the list is one number alone. That may be an index.
    pub alone: Option<u128>,
}
