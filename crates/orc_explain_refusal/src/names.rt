//! The names of a running program: of variables, definitions, sites and cells. A cell is what an opened pruning puts for its variable in the marked
//! term, the term that is running, with its tokens. A scope says what one name means, and extends another scope.

use crate::sign::Sign;
use orc_checker::Marked;
use orc_env::{Bound, StoredScope};
use orc_report::{Fill, Page};
use orc_rules::answers::Answers;
use orc_scope::{Names as Variables, variables};
use orc_syntax::Ast;
use std::alloc::{AllocError, Global};

/// The names of a program, and the variable of each of its cells.
pub(crate) struct Names<'r, 's> {
    // For the names of definitions.
    ast: &'r Ast<'s>,
    // For the names of sites.
    answers: &'r Answers,
    // The source's variables, by their numbers.
    variables: Variables<'s>,
    // The variable of each cell, by the cell's number; that of cell 0, which there isn't, is None.
    cells: Vec<Option<u32>>,
}

// Written out, so that a caller's proof sees one call and not the drop of each field.
impl Drop for Names<'_, '_> {
    fn drop(self) {
        let Names {
            ast: _,
            answers: _,
            variables: _,
            cells: _,
        } = self;
    }
}

// The variable of each cell below the number `next`, that of the next cell. The first scope that binds a name to the cell was made when its pruning
// was opened, so that name is the cell's variable. None for a cell that no scope has, and for cell 0. The error is refused memory.
fn cells_of(
    alloc: Global,
    scopes: &[StoredScope],
    next: u64,
) -> Result<Vec<Option<u32>>, AllocError> {
    let mut cells = Vec::new(alloc);
    for _cell in 0..next {
        cells.push(None)?;
    }
    for scope in scopes {
        if let Bound::Cell(cell) = scope.bound() {
            if let Some(name) = cells.get_mut(cell as usize) {
                if name.is_none() {
                    *name = Some(scope.name());
                }
            }
        }
    }
    Ok(cells)
}

impl<'r, 's> Names<'r, 's> {
    /// The names of a program and of the cells of its marked term. The error is refused memory.
    pub(crate) fn new(
        alloc: Global,
        ast: &'r Ast<'s>,
        answers: &'r Answers,
        marked: &Marked,
    ) -> Result<Names<'r, 's>, AllocError> {
        Ok(Names {
            ast,
            answers,
            variables: variables(alloc, ast)?,
            cells: cells_of(alloc, marked.scopes(), marked.new_cell())?,
        })
    }

    /// The place, from 0, in its call of the argument for which the scope check made the variable with the number `name`; each call uses the same
    /// numbers, those behind the numbers of the source's variables. The variable of a `>>` or `<<`, which has no name, has the first of them, so it
    /// gives 0 too. None if `name` is a variable of the source.
    pub(crate) fn argument(&self, name: u32) -> Option<usize> {
        (name as usize).checked_sub(self.variables.len())
    }

    /// Writes the name of the variable with this number; nothing if the scope check made the variable, for an argument or for a `>>` or `<<`.
    pub(crate) fn say_variable(&self, page: &mut Page, name: u32) {
        if let Some(text) = self.variables.get(name as usize) {
            page.word(text);
        }
    }

    /// Writes a cell as `x#1`: its variable and its number. Nothing stands before the `#` if that is no variable of the source.
    pub(crate) fn say_cell(&self, page: &mut Page, cell: u64) {
        if let Some(Some(name)) = self.cells.get(cell as usize) {
            self.say_variable(page, *name);
        }
        page.tell("#%", &[Fill::Number(cell)]);
    }

    /// Writes the sign `sign` of an operation, with the name that it binds where that is a variable of the source: `>x>`, or `>>` for one without a
    /// name.
    pub(crate) fn say_sign(&self, page: &mut Page, sign: Sign) {
        // What stands before the name, and what stands behind it.
        let (before, behind) = match sign {
            Sign::Par => (" | ", ""),
            Sign::Other => (" ; ", ""),
            Sign::Seq(_) => (" >", "> "),
            Sign::Prune(_) | Sign::Opened(_) => (" <", "< "),
        };
        page.say(before);
        match sign {
            Sign::Seq(name) | Sign::Prune(name) if self.argument(name).is_none() => {
                self.say_variable(page, name);
            }
            Sign::Opened(cell) => self.say_cell(page, cell),
            // No name to write: a sign without a variable, or the variable of an argument.
            _ => {}
        }
        page.say(behind);
    }

    /// The name of a definition, nothing where there is none.
    pub(crate) fn definition(&self, definition: u32) -> &'s [u8] {
        match self.ast.definitions.get(definition as usize) {
            Some(definition) => definition.name.text,
            None => b"",
        }
    }

    /// The name of a site, nothing where there is none.
    pub(crate) fn site(&self, site: u32) -> &'r [u8] {
        self.answers.name(site).unwrap_or(b"")
    }
}
