//! One node of a graph, which is what a run reads of a program.

use orc_rules::value::Value;

/// A node of a program's terms. It names its parts by the numbers of their nodes, from 0, and a call's operands by the number of their list.
#[derive(Clone, Copy, Debug, PartialEq, Eq)]
pub enum Node {
    /// `stop`.
    Stop,
    /// A variable, by the number of its name.
    Name(u32),
    /// A value.
    Is(Value),
    /// A call of a site, with the number of the site and that of its list of operands.
    Site(u32, u32),
    /// A call of a definition, with the number of the definition and that of its list of operands.
    Call(u32, u32),
    /// `f | g`, with the nodes of f and g.
    Par(u32, u32),
    /// `f >x> g`, with the node of f, the name x and the node of g.
    Seq(u32, u32, u32),
    /// `f <x< g`, with the node of f, the name x and the node of g.
    Prune(u32, u32, u32),
    /// `f ; g`, with the nodes of f and g.
    Other(u32, u32),
}
