//! The scope of a line: what its tokens are read with.

ghost use Rattle.std.specs.Prelude.{◌<◌, ◌^◌, length};

use crate::test::SiteName;
use crate::token::Token;

/// What the functions that read a line look names up in. A claim names a site by its place among the sites, and a variable by the place of its first
/// token in the line.
#[derive(Clone, Copy)]
pub struct Scope<'t, 'a> {
    /// The sites that the lines up to this one name, this one included.
    pub sites: &'t [SiteName<'a>],
    /// All tokens of the line.
    pub line: &'t [Token<'a>],
    // A claim keeps both places as u32, so these lengths must fit.
    ghost sites_fit: { length sites.now < 2 ^ 32 },
    ghost line_fits: { length line.now < 2 ^ 32 },
}
