//! Faults of a source's names (C1 to C9).
//!
//! A function `say_..` writes what its comment names at the end of `page`, and `page.heed_search` refuses the page if a search for a name was refused
//! memory. A place `at` is a byte of the source, from 0. A `Binding` is a variable where it is named, with the part of the source in which it is
//! known; its `Binder` is what names it, such as a `>x>`. `answers` is the table of sites. `ast` is the program's tree, in which an expression is a
//! list of nodes. `subject` has the files of the command line, and `document` is the source's: its name and its text.

use crate::bindings::{Binder, Binding, Bindings};
use crate::built_in::{built_in_named, purpose};
use crate::hint::{Hint, say_hint};
use crate::outline::Outline;
use crate::syntax::say_refused;
use crate::tokens::span_at;
use crate::wanted::NO_IF;
use crate::words::{RESERVED, is_one_of};
use orc_report::{Document, Near, Page, Subject};
use orc_rules::answers::Answers;
use orc_rules::limits::{MOST_ARGUMENTS, MOST_NODES};
use orc_scope::{FaultKind, ScopeFault};
use orc_site::read_script;
use orc_syntax::{Ast, Definition, Expr, Name, Part, parse};
use std::alloc::Global;

/// What other languages call a choice between two branches.
const CHOICES: [&[u8]; 2] = [b"if", b"If"];

// The first definition of this name. None where there is none.
fn definition_of<'d, 'a>(ast: &'d Ast<'a>, name: &[u8]) -> Option<&'d Definition<'a>> {
    for definition in &ast.definitions {
        if definition.name.text == name {
            return Some(definition);
        }
    }
    None
}

// The first parameter of this name in the definition that has a parameter at this byte. None where no definition has one there.
fn first_parameter<'a>(ast: &Ast<'a>, name: &[u8], at: usize) -> Option<Name<'a>> {
    for definition in &ast.definitions {
        if definition
            .parameters
            .iter()
            .any(|parameter| parameter.span.start == at)
        {
            return named(&definition.parameters, name);
        }
    }
    None
}

// The first of some names with this text. None where none has it.
fn named<'a>(names: &[Name<'a>], name: &[u8]) -> Option<Name<'a>> {
    for other in names {
        if other.text == name {
            return Some(*other);
        }
    }
    None
}

// How many arguments the call in an expression has whose name begins at this byte of the source. None where the expression has no such call.
fn arguments_in(expression: &Expr, at: usize) -> Option<usize> {
    for node in &expression.nodes {
        if let Part::Call(name, count) = node.part {
            if name.span.start == at {
                return Some(count);
            }
        }
    }
    None
}

// How many arguments the call has whose name begins at this byte of the source; 0 where there is no such call.
fn arguments_at(ast: &Ast, at: usize) -> usize {
    for definition in &ast.definitions {
        if let Some(count) = arguments_in(&definition.body, at) {
            return count;
        }
    }
    arguments_in(&ast.main, at).unwrap_or(0)
}

// Whether an expression calls a name.
fn has_call(expression: &Expr, name: &[u8]) -> bool {
    for node in &expression.nodes {
        if let Part::Call(called, _) = node.part {
            if called.text == name {
                return true;
            }
        }
    }
    false
}

// Whether the program calls a name.
fn calls(ast: &Ast, name: &[u8]) -> bool {
    for definition in &ast.definitions {
        if has_call(&definition.body, name) {
            return true;
        }
    }
    has_call(&ast.main, name)
}

// Whether a call in an expression has over `MOST_ARGUMENTS` arguments.
fn has_wide_call(expression: &Expr) -> bool {
    for node in &expression.nodes {
        if let Part::Call(_, count) = node.part {
            if count > MOST_ARGUMENTS {
                return true;
            }
        }
    }
    false
}

// Whether a call or a definition has over `MOST_ARGUMENTS` arguments or parameters.
fn has_too_many(ast: &Ast) -> bool {
    for definition in &ast.definitions {
        if definition.parameters.len() > MOST_ARGUMENTS || has_wide_call(&definition.body) {
            return true;
        }
    }
    has_wide_call(&ast.main)
}

// The variable whose name is nearest to the one that `near` searches for; None if none is near. The search takes only names that are nearer than
// those it took before, so the last one that it takes is the nearest.
fn near_variable<'a>(near: &mut Near, bindings: &Bindings<'a>) -> Option<Name<'a>> {
    let mut nearest = None;
    for binding in bindings.list.iter() {
        if near.takes(binding.name.text) {
            nearest = Some(binding.name);
        }
    }
    nearest
}

// The definition with the name that is nearest to the one that `near` searches for. None if no definition's name is nearer than all names that the
// search took before.
fn near_definition<'a>(near: &mut Near, ast: &Ast<'a>) -> Option<Name<'a>> {
    let mut nearest = None;
    for definition in &ast.definitions {
        if near.takes(definition.name.text) {
            nearest = Some(definition.name);
        }
    }
    nearest
}

// The reserved word that is nearest to the name that `near` searches for. None if no word is nearer than all names that the search took before.
fn near_word(near: &mut Near) -> Option<&'static [u8]> {
    let mut nearest = None;
    for word in RESERVED.iter() {
        if near.takes(*word) {
            nearest = Some(*word);
        }
    }
    nearest
}

/// The name of a site of the table `answers` that is nearest to the one that `near` searches for. None if no site's name is nearer than all names
/// that the search took before.
pub(crate) fn near_site<'a>(near: &mut Near, answers: &'a Answers) -> Option<&'a [u8]> {
    let mut nearest = None;
    // Sites are numbered from 0 without a gap, so the first number without a name is behind the last site.
    for site in 0..u32::MAX {
        let Some(name) = answers.name(site) else {
            return nearest;
        };
        if near.takes(name) {
            nearest = Some(name);
        }
    }
    // Not reached: no table has so many sites.
    nearest
}

// A hint's words on where a variable is known: `%` is its name, `@` where it is named.
fn reach(binder: Binder) -> &'static str {
    match binder {
        Binder::Pruning => "`%` is named in @, but in `f <%< g` it is known in f alone",
        Binder::Sequence => "`%` is named in @, but in `f >%> g` it is known in g alone",
        Binder::Val => "`%` is named in @, but in `val % = g f` it is known in f alone",
        Binder::Parameter => "`%` is named in @, but a parameter is known in its own body alone",
    }
}

/// Explains a fault of a name in the subject's source.
pub(crate) fn say_scope(page: &mut Page, alloc: Global, subject: &Subject, fault: ScopeFault) {
    if fault.kind == FaultKind::Memory {
        say_refused(page, "names were looked up");
        return;
    }
    // A text that doesn't parse has no fault of its names: only memory can be refused here.
    match parse(alloc, subject.source.text) {
        Ok(ast) => say_name(page, alloc, subject, &ast, fault),
        Err(_) => page.refuse(),
    }
}

// Shows the line of the name that the fault points at, and says behind the carets what is wrong with it.
fn say_name(page: &mut Page, alloc: Global, subject: &Subject, ast: &Ast, fault: ScopeFault) {
    let document = &subject.source;
    let at = fault.span.start;
    // The first token of what the fault points at: a name, except for C8.
    let span = span_at(document.text, at);
    let name = document.part(span);
    page.point(document, span);
    match fault.kind {
        FaultKind::Unbound => say_unbound(page, alloc, document, ast, name),
        FaultKind::NotValue => say_not_value(page, ast, name),
        FaultKind::Arity { want, got } => {
            say_arity(page, document, ast, name, want as u64, got as u64);
        }
        FaultKind::DefinedTwice => say_second_definition(page, document, ast, name),
        FaultKind::ParameterTwice => say_second_parameter(page, document, ast, name, at),
        FaultKind::CallOfVariable => say_call_of_variable(page, alloc, document, ast, name, at),
        FaultKind::NoSite => say_no_site(page, alloc, subject, ast, name, at),
        // `say_scope` took refused memory.
        FaultKind::TooMany | FaultKind::Memory => say_too_many(page, has_too_many(ast)),
    }
}

// Fault C1: the name `name` means nothing here. If a variable has this name elsewhere, the hint says where that variable is known.
fn say_unbound(page: &mut Page, alloc: Global, document: &Document, ast: &Ast, name: &[u8]) {
    page.say_word("no `", name, "` is in scope here\n");
    let Ok(bindings) = Bindings::new(alloc, ast) else {
        // Memory was refused, so the page isn't given out.
        page.refuse();
        return;
    };
    match bindings.first(name) {
        Some(binding) => {
            let words = reach(binding.binder);
            say_hint(
                page,
                document,
                Hint::of_place(words, name, binding.name.span.start),
            );
        }
        None => say_near(page, alloc, ast, &bindings, name),
    }
}

// Writes which name may have been meant by one that is known nowhere. The search is shown variables, definitions and words in turn, and takes only
// ever nearer names, so the last kind that it took from has the nearest.
fn say_near(page: &mut Page, alloc: Global, ast: &Ast, bindings: &Bindings, name: &[u8]) {
    let mut near = Near::new(alloc, name);
    let variable = near_variable(&mut near, bindings);
    let definition = near_definition(&mut near, ast);
    let word = near_word(&mut near);
    // If the search was refused memory, the page isn't given out.
    page.heed_search(&near);
    match word.or(text_of(definition.or(variable))) {
        Some(other) => say_meant(page, other),
        None => say_perhaps_site(page, name),
    }
}

// A name's text, if there is a name.
fn text_of<'a>(name: Option<Name<'a>>) -> Option<&'a [u8]> {
    name.map(|name| name.text)
}

// Writes the name `name`, which was probably meant, and what it answers if it is that of a built-in site.
fn say_meant(page: &mut Page, name: &[u8]) {
    page.note("help: ");
    page.say_word("did you mean `", name, "`?");
    if let Some(site) = built_in_named(name) {
        page.say(" It is ");
        page.say(purpose(site));
        page.say(".");
    }
    page.say("\n");
}

// A name with a capital letter may be meant as a site, so it says how a site is called. Of another name nothing is said.
fn say_perhaps_site(page: &mut Page, name: &[u8]) {
    if let [b'A'..=b'Z', ..] = name {
        page.note("help: ");
        page.say_word("a site is called with brackets: `", name, "()`\n");
    }
}

// Fault C2: a definition or a site that is used as a value: it can only be called.
fn say_not_value(page: &mut Page, ast: &Ast, name: &[u8]) {
    let kind = match definition_of(ast, name) {
        Some(_) => "definition",
        None => "site",
    };
    page.say_word("`", name, "` is a ");
    page.say(kind);
    page.say(", and isn't called here\n");
    page.note("help: ");
    page.say_word("call it: `", name, "(..)`; ");
    page.say(kind);
    page.say("s aren't values\n");
}

// Fault C3: a call of the definition `name`, which takes `want` arguments, with `got` of them.
fn say_arity(page: &mut Page, document: &Document, ast: &Ast, name: &[u8], want: u64, got: u64) {
    page.say("called with ");
    page.count(got, "argument");
    page.say("\n");
    page.note("expected: ");
    page.count(want, "argument");
    if let Some(definition) = definition_of(ast, name) {
        page.say_word(", as `", name, "` is defined in ");
        page.place(document.text, definition.name.span.start);
    }
    page.say("\n");
}

// Fault C4: a second definition of a name. `definition_of` gives the first, and the page says where that one stands.
fn say_second_definition(page: &mut Page, document: &Document, ast: &Ast, name: &[u8]) {
    page.say("a second definition of this name\n");
    if let Some(first) = definition_of(ast, name) {
        say_first(page, document, first.name);
    }
}

// Fault C5: a second parameter of a name, at byte `at` of the source. The page says where the first one stands.
fn say_second_parameter(page: &mut Page, document: &Document, ast: &Ast, name: &[u8], at: usize) {
    page.say("a second parameter of this name\n");
    if let Some(first) = first_parameter(ast, name, at) {
        say_first(page, document, first);
    }
}

// Writes in which line and column the first one of two names stands.
fn say_first(page: &mut Page, document: &Document, name: Name) {
    page.note("the first one stands in ");
    page.place(document.text, name.span.start);
    page.say("\n");
}

// Fault C6: a called name that means a variable. The name begins at byte `at` of the source.
fn say_call_of_variable(
    page: &mut Page,
    alloc: Global,
    document: &Document,
    ast: &Ast,
    name: &[u8],
    at: usize,
) {
    page.say_word(
        "`",
        name,
        "` is a variable, and variables can't be called\n",
    );
    match Bindings::new(alloc, ast) {
        Ok(bindings) => say_binding(page, document, bindings.known(name, at)),
        // Memory was refused, so the page isn't given out.
        Err(_) => page.refuse(),
    }
    page.note("help: ");
    page.say_word(
        "sites and definitions aren't values; where a bracket only follows it, write `(",
        name,
        ")`\n",
    );
}

// Writes where a variable is named; nothing if that isn't known.
fn say_binding(page: &mut Page, document: &Document, binding: Option<Binding>) {
    if let Some(binding) = binding {
        page.note("it is named in ");
        page.place(document.text, binding.name.span.start);
        page.say("\n");
    }
}

// Fault C7: a called name that means nothing. The name begins at byte `at` of the source.
fn say_no_site(
    page: &mut Page,
    alloc: Global,
    subject: &Subject,
    ast: &Ast,
    name: &[u8],
    at: usize,
) {
    page.say_word("no definition and no site is called `", name, "`\n");
    if is_one_of(name, CHOICES.as_slice()) {
        page.help(NO_IF);
        return;
    }
    // The script was read before: only memory can be refused here.
    match read_script(alloc, subject.script_text()) {
        Ok(answers) => say_near_site(page, alloc, subject, ast, &answers, name, at),
        Err(_) => page.refuse(),
    }
}

// Writes which site or definition may have been meant by the called name at byte `at`, or else how to write a site of one's own. A name that the
// program calls elsewhere was surely meant; for another one the script may have the wrong name.
fn say_near_site(
    page: &mut Page,
    alloc: Global,
    subject: &Subject,
    ast: &Ast,
    answers: &Answers,
    name: &[u8],
    at: usize,
) {
    let mut near = Near::new(alloc, name);
    let definition = near_definition(&mut near, ast);
    let site = near_site(&mut near, answers);
    // If the search was refused memory, the page isn't given out.
    page.heed_search(&near);
    match site.or(text_of(definition)) {
        Some(other) if calls(ast, other) => say_meant(page, other),
        Some(other) => say_perhaps_script(page, alloc, subject, other, name),
        None => say_own_site(page, subject, name, arguments_at(ast, at)),
    }
}

// `meant` is a name that may have been meant by `name`, but that the program never calls. If a line of the script has `meant`, either of the two
// names may be wrong, so both are written.
fn say_perhaps_script(
    page: &mut Page,
    alloc: Global,
    subject: &Subject,
    meant: &[u8],
    name: &[u8],
) {
    let Ok(script) = Outline::new(alloc, subject.script_text()) else {
        // Memory was refused, so the page isn't given out.
        page.refuse();
        return;
    };
    match script.service(meant) {
        Some((line, _count)) => {
            page.note("help: ");
            page.say_number("line ", line as u64, " of the script has `");
            page.word(meant);
            page.say_word("`, the program calls `", name, "`\n");
        }
        None => say_meant(page, meant),
    }
}

// Writes the line that a script needs for a site of one's own with `count` arguments, a `_` for each. The line's answer, 0 after 1, is only an
// example.
fn say_own_site(page: &mut Page, subject: &Subject, name: &[u8], count: usize) {
    page.note("help: a site of your own needs a line in ");
    match subject.script {
        Some(script) => {
            page.say("the script ");
            page.path(script.name);
        }
        None => page.say("a script, given with --script"),
    }
    page.say_word(": `", name, "(");
    for argument in 0..count {
        page.say(if argument > 0 { ", _" } else { "_" });
    }
    page.say(") = 0 after 1`\n");
}

// Fault C8: if `are_arguments`, a call or a definition has too many arguments or parameters; or else the program has too many nodes.
fn say_too_many(page: &mut Page, are_arguments: bool) {
    if are_arguments {
        page.say_number(
            "the ",
            MOST_ARGUMENTS as u64 + 1,
            "th argument or parameter\n",
        );
        page.note("expected: at most ");
        page.number(MOST_ARGUMENTS as u64);
        page.say("\n");
        page.help("put the numbers into fewer parameters");
    } else {
        page.say("the program has over ");
        page.grouped(MOST_NODES as u64);
        page.say(" nodes when it is written out\n");
    }
}
