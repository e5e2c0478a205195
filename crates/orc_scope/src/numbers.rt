//! The numbers of names: in terms, definitions, sites and variables are numbers of 32 bits. A *new* variable is one that no name in the source means:
//! it is bound by a `>>` or `<<`, or it stands in the place of an argument that is no literal or variable.

ghost use Rattle.std.specs.Prelude.{◌≡◌, ◌<◌, ◌+◌, [], ℕ, List, length, map, slice_index_or, IfSome, IfNone};
ghost use Rattle.orc_rules.specs.declared.param.Operand.{Operand};
ghost use Rattle.orc_rules.specs.declared.limits.TheConstants.{MOST_ARGUMENTS};
ghost use Rattle.orc_rules.specs.Nodes.{unfold_node, HasParts, param_of};
ghost use Rattle.orc_rules.specs.Term.{Term};
ghost use Rattle.orc_syntax.specs.Ast.{label_if};
ghost use Rattle.orc_scope.specs.Looking.{known_of};
ghost use Rattle.orc_scope.specs.Numbers.{Numbering, AreSmall};
ghost use Rattle.orc_scope.specs.Listed.{HasList};
ghost use Rattle.orc_scope.specs.Scope.{outer_meaning, position};
ghost use Rattle.orc_scope.specs.Written.{number, variable_of, called};

use crate::known::Known;
use crate::names::Names;
use orc_rules::limits::MOST_ARGUMENTS;
use orc_rules::program::TermNode;
use orc_syntax::Name;
use std::marker::Model;

/// The names of definitions, sites and variables; a name's number is its first place among those of its kind. New variables have the numbers behind
/// those of all variables that a source names, so they equal none of them. All numbers fit 32 bits, those of `MOST_ARGUMENTS` new variables too.
pub struct Numbers<'a, 's> {
    known: Known<'a, 's>,
    variables: Names<'a>,
}

// Written out, so that a caller's proof sees one call and not the drop of each field. In the pattern `_` drops a field.
impl Drop for Numbers<'_, '_> {
    fn drop(self) {
        let Numbers {
            known: _,
            variables: _,
        } = self;
    }
}

// Contracts see the names: `known` has those of the definitions and sites, `names` those of the variables. All numbers fit 32 bits (`AreSmall`).
impl<'a, 's> Model for Numbers<'a, 's> {
    ghost Value = { Numbering };

    ghost view = { λ n. record { known = known_of n.known; names = n.variables } };

    ghost invariant = { λ n. AreSmall (record { known = known_of n.known; names = n.variables }) };
}

impl<'a, 's> Numbers<'a, 's> {
    /// The numbers of these names; None where 32 bits don't number them all.
    pub fn new(known: Known<'a, 's>, variables: Names<'a>) -> Option<Numbers<'a, 's>>
        ensures some { IfSome result (λ n. n ≡ record { known = known_of known.entry; names = variables.entry }) }
        ensures none { IfNone result (AreSmall (record { known = known_of known.entry; names = variables.entry }) → ⊥) }
    {
        // How many names 32 bits number. Variables leave `MOST_ARGUMENTS` numbers for new ones.
        let most = 1 << 32;
        if known.definitions.len() > most
            || known.sites.len() > most
            || variables.len() > most - MOST_ARGUMENTS
        {
            return None;
        }
        Some(Numbers { known, variables })
    }

    /// The number of a variable of this name; where no variable has it, the first number behind those of all variables, which is that of a new one.
    /// The cast loses nothing, here and below: all numbers fit 32 bits.
    #[inline(always)]
    #[tactic(auto, using(crate::proofs::Places::position_within))]
    pub fn variable(&self, text: &[u8]) -> u32
        ensures { result ≡ number self.now.names text.now }
    {
        match self.variables.find(text) {
            Some(at) => at as u32,
            None => self.variables.len() as u32,
        }
    }

    /// The number of the variable that an operator binds. An operator without a name binds a new one: its number is the first behind those of all
    /// variables.
    pub fn operator(&self, name: Option<Name>) -> u32
        ensures { result ≡ variable_of self.now.names (label_if name.entry) }
    {
        match name {
            Some(name) => self.variable(name.text),
            None => self.variables.len() as u32,
        }
    }

    /// The number of the new variable for the argument at this place of a call, from 0. Each call uses the same numbers: a call among its arguments
    /// stands in the right side of a pruning, out of the scope of these variables.
    pub fn fresh(&self, place: usize) -> u32
        requires { place < MOST_ARGUMENTS }
        ensures { result ≡ length self.now.names + place }
    {
        (self.variables.len() + place) as u32
    }

    /// A call of the definition or site that this name means, with the list of operands of the number `list`, from 0; `stop` where the name means
    /// neither. A name that means a variable doesn't come: the check refuses its call before (C6).
    #[tactic(auto, using(crate::proofs::Places::position_within))]
    pub fn called(&self, text: &[u8], list: usize) -> TermNode
        ensures term { (code : ℕ → Term) (lists : List (List Operand)) → unfold_node code lists result ≡ called (outer_meaning (position self.now.known.definitions text.now) (position self.now.known.sites text.now)) (map param_of (slice_index_or lists list [])) }
        ensures parts { (n : ℕ) → HasParts n result }
        ensures list { (n : ℕ) → list < n → HasList n result }
    {
        if let Some(definition) = self.known.definitions.find(text) {
            return TermNode::Call(definition as u32, list);
        }
        match self.known.sites.find(text) {
            Some(site) => TermNode::Site(site as u32, list),
            None => TermNode::Stop,
        }
    }
}
