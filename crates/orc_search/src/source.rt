//! The terms of a program's text as small ones. Its nodes are in an order in which parts come before what they are parts of. In a small term calls
//! and cells have no numbers of their own: `change.rt` says by what a cell goes. A term is named by its number in `Terms`. An operand of a text is a
//! name or a value; a parameter (`Param`) of a term may be a cell or void, too.
//!
//! In contracts `smalls terms` is the list of all terms by their numbers, and `Extends` says that those which were there stay. `AreNumbered` says
//! that each number is that of the small term of the program's node at its place.

ghost use Rattle.std.specs.Prelude.{◌≡◌, length, map, slice_get, IfOk};
ghost use Rattle.orc_rules.specs.Nodes.{param_of};
ghost use Rattle.orc_search.specs.Nodes.{smalls, Extends};
ghost use Rattle.orc_search.specs.Sources.{AreNumbered, IsNodeOf, IsPairOf};

use crate::node::{Joint, Node, Tip};
use crate::terms::Terms;
use orc_rules::param::{Operand, Param};
use orc_rules::program::{Program, TermNode};
use std::alloc::{AllocError, Global};

// An operand of a source as a parameter.
fn param_of(operand: Operand) -> Param
    ensures { result ≡ param_of operand }
{
    match operand {
        Operand::Name(x) => Param::Name(x),
        Operand::Is(v) => Param::Is(v),
    }
}

// Operands as parameters. The error is refused memory.
fn params_of(alloc: Global, operands: &[Operand]) -> Result<Vec<Param>, AllocError>
    ensures { IfOk result (λ v. v.items ≡ map param_of operands.now) }
{
    let mut params = Vec::new(alloc);
    for operand in operands {
        params.push(param_of(*operand))?;
    }
    Ok(params)
}

// The number of the small term of the program's node `i`, from 0, which `numbers` has at that place; None if it isn't known yet.
fn number_at(numbers: &[usize], i: usize) -> Option<usize>
    ensures { result ≡ slice_get numbers.now i }
{
    match numbers.get(i) {
        Some(number) => Some(*number),
        None => None,
    }
}

// The node that joins the small terms of the program's nodes f and g, the left and the right one. `numbers` has the numbers of these terms, by the
// program's nodes. The error, which no program comes to, is that the number of one isn't known yet.
fn pair_of(numbers: &[usize], joint: Joint, f: usize, g: usize) -> Result<Node, AllocError>
    ensures { IfOk result (λ n. IsPairOf numbers.now joint f g n) }
{
    let Some(left) = number_at(numbers, f) else {
        return Err(AllocError);
    };
    let Some(right) = number_at(numbers, g) else {
        return Err(AllocError);
    };
    Ok(Node::Pair(joint, left, right))
}

// The node of the small term of a program's node, `unfolded`. `numbers` has the numbers of the small terms of the nodes before it. The error
// is refused memory, or that the number of a part isn't known yet. The contract says that the parts of the node that is given are among the terms,
// and that the term of this node is that of the program's node.
fn node_of(
    alloc: Global,
    program: &Program,
    numbers: &[usize],
    unfolded: TermNode,
) -> Result<Node, AllocError>
    ensures { IfOk result (λ n. IsNodeOf program.now numbers.now unfolded n) }
{
    match unfolded {
        TermNode::Stop => Ok(Node::Tip(Tip::Nothing)),
        TermNode::Operand(operand) => Ok(Node::Tip(Tip::Gives(param_of(operand)))),
        TermNode::Site(site, list) => {
            let params = params_of(alloc, program.operands(list))?;
            Ok(Node::Tip(Tip::Asks(site, params)))
        }
        TermNode::Call(definition, list) => {
            let params = params_of(alloc, program.operands(list))?;
            Ok(Node::Tip(Tip::Enters(definition, params)))
        }
        TermNode::Par(f, g) => {
            let node = pair_of(numbers, Joint::Both, f, g)?;
            Ok(node)
        }
        TermNode::Seq(f, x, g) => {
            let node = pair_of(numbers, Joint::Feeds(x), f, g)?;
            Ok(node)
        }
        TermNode::Prune(f, x, g) => {
            let node = pair_of(numbers, Joint::Prunes(x), f, g)?;
            Ok(node)
        }
        TermNode::Other(f, g) => {
            let node = pair_of(numbers, Joint::Instead, f, g)?;
            Ok(node)
        }
    }
}

/// The numbers of the small terms of a program's nodes, one for each node in their order. The error is refused memory. The terms that were there
/// stay, also after an error.
pub fn numbered(
    terms: &mut Terms,
    alloc: Global,
    program: &Program,
) -> Result<Vec<usize>, AllocError>
    ensures numbers { IfOk result (λ v. AreNumbered (smalls terms.new) program.now v.items) }
    ensures all { IfOk result (λ v. length v.items ≡ length program.now.nodes) }
    ensures kept { Extends (smalls terms.old) (smalls terms.new) }
{
    let mut numbers: Vec<usize> = Vec::new(alloc);
    for at in 0..program.len() {
        // The parts of a program's node come before it, so `numbers` has the numbers of their terms.
        let node = node_of(alloc, program, &numbers, program.node(at))?;
        let number = terms.number_of(node)?;
        numbers.push(number)?;
    }
    Ok(numbers)
}
