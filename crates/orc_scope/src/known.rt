//! What stands outside of all expressions: the names that mean something everywhere.

ghost use Rattle.std.specs.Prelude.{◌≡◌, ◌^◌, map, take, IfOk};
ghost use Rattle.orc_syntax.specs.Ast.{text_of};
ghost use Rattle.orc_scope.specs.Looking.{known_of, name_text, arity};

use crate::names::Names;
use orc_syntax::Definition;
use std::alloc::{AllocError, Global};

/// The names of the definitions with their numbers of parameters, and the names of the sites. The number of a definition or site is its place
/// here, from 0.
pub struct Known<'a, 's> {
    pub definitions: Names<'a>,
    /// How many parameters each definition has.
    pub arities: Vec<usize>,
    pub sites: Names<'s>,
}

// Written out, so that a caller's proof sees one call and not the drop of each field. In the pattern `_` drops a field.
impl Drop for Known<'_, '_> {
    fn drop(self) {
        let Known {
            definitions: _,
            arities: _,
            sites: _,
        } = self;
    }
}

// The first 2^32 of these names, or all where there are fewer: so many have a number of 32 bits. The error is refused memory.
fn all_names<'s>(alloc: Global, texts: &[&'s [u8]]) -> Result<Names<'s>, AllocError>
    ensures { IfOk result (λ names. names ≡ take (2 ^ 32) (map text_of texts.now)) }
{
    let mut names = Names::new(alloc);
    let count = texts.len().min(1 << 32);
    for text in &texts[..count] {
        names.push(*text)?;
    }
    Ok(names)
}

impl<'a, 's> Known<'a, 's> {
    /// What these definitions and sites make known. A site's number has 32 bits, so those behind the first 2^32 are not known. The error is refused
    /// memory.
    pub fn new(
        alloc: Global,
        definitions: &[Definition<'a>],
        sites: &[&'s [u8]],
    ) -> Result<Known<'a, 's>, AllocError>
        ensures names { IfOk result (λ known. known.definitions ≡ map name_text definitions.now) }
        ensures arities { IfOk result (λ known. known.arities.items ≡ map arity definitions.now) }
        ensures sites { IfOk result (λ known. known.sites ≡ take (2 ^ 32) (map text_of sites.now)) }
    {
        let mut names = Names::new(alloc);
        let mut arities = Vec::new(alloc);
        for definition in definitions {
            names.push(definition.name.text)?;
            arities.push(definition.parameters.len())?;
        }
        Ok(Known {
            definitions: names,
            arities,
            sites: all_names(alloc, sites)?,
        })
    }
}
