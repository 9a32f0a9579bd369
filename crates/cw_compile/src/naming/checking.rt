ghost use Rattle.std.specs.Prelude.{◌≡◌, map, OnOk, IfOk, Some};
ghost use Rattle.std.specs.List.{position_from};
ghost use Rattle.std.specs.Result.{result_err};
ghost use Rattle.cw_text.specs.Syntax.{term_of, terms_of, statement_of, block_of, declaration_of};
ghost use Rattle.cw_strand.specs.declared.naming.Around.TheVariants.{Neither};
ghost use Rattle.cw_strand.specs.Names.{find, used, indexed, fault_of_call, count_of, returned_from, cancelled_in, in_term, in_terms, in_statement, scope_after, in_block, in_params, scope_with_params, ◌then◌, in_functions, main_of, naming_fault, without_main};
ghost use Rattle.cw_compile.specs.NamingRules.Items.{IsAllOf, is_main};
ghost use Rattle.cw_compile.specs.NamingRules.Scopes.{Finds};
ghost use Rattle.cw_compile.specs.NamingRules.Visible.{StaysVisible, visible_in};

use super::items::{Declared, declared_new};
use super::scope::{Scope, Thing};
use super::visible::Visible;
use crate::NameRefusal;
use cw_strand::{Around, NameFault, NameKind};
use cw_text::{Expr, Item, Stmt, Word};
use std::alloc::Global;

/// The fault of a name that is read or assigned.
fn used(visible: &Visible<'_>, word: &Word) -> Result<(), NameFault>
    ensures { result_err result ≡ used (find word.now.name (visible_in visible.now)) word.now.line }
{
    let kind = match visible.find(&word.name) {
        Some(Thing::Local | Thing::Cell) => return Ok(()),
        Some(Thing::Array) => NameKind::NotACell,
        Some(Thing::Function(_)) => NameKind::NotALocal,
        None => NameKind::Unknown,
    };
    Err(NameFault {
        kind,
        line: word.line,
    })
}

/// The fault of a name that is read or assigned with an index.
fn indexed(visible: &Visible<'_>, word: &Word) -> Result<(), NameFault>
    ensures { result_err result ≡ indexed (find word.now.name (visible_in visible.now)) word.now.line }
{
    let kind = match visible.find(&word.name) {
        Some(Thing::Array) => return Ok(()),
        Some(Thing::Local | Thing::Cell | Thing::Function(_)) => NameKind::NotACell,
        None => NameKind::Unknown,
    };
    Err(NameFault {
        kind,
        line: word.line,
    })
}

/// The fault of a name that is called with `args` arguments.
fn called(visible: &Visible<'_>, word: &Word, args: usize) -> Result<(), NameFault>
    ensures { result_err result ≡ fault_of_call (find word.now.name (visible_in visible.now)) args word.now.line }
{
    let kind = match visible.find(&word.name) {
        Some(Thing::Function(params)) if params == args => return Ok(()),
        Some(Thing::Function(_)) => NameKind::WrongCount,
        Some(Thing::Local | Thing::Cell | Thing::Array) | None => NameKind::Unknown,
    };
    Err(NameFault {
        kind,
        line: word.line,
    })
}

/// The fault of a `return`, given the innermost block around it.
fn returned_from(around: Around, line: u32) -> Result<(), NameFault>
    ensures { result_err result ≡ returned_from around line }
{
    match around {
        Around::Neither => Ok(()),
        Around::Atomic | Around::Spawn => Err(NameFault {
            kind: NameKind::ReturnInside,
            line,
        }),
    }
}

/// The fault of a `cancel`, given the innermost block around it.
fn cancelled_in(around: Around, line: u32) -> Result<(), NameFault>
    ensures { result_err result ≡ cancelled_in around line }
{
    match around {
        Around::Atomic => Ok(()),
        Around::Neither | Around::Spawn => Err(NameFault {
            kind: NameKind::CancelOutside,
            line,
        }),
    }
}

/// The first fault in an expression.
#[cycle(expression)]
fn in_term(visible: &Visible<'_>, term: &Expr) -> Result<(), NameFault>
    ensures { result_err result ≡ in_term (visible_in visible.now) (term_of term.now) }
{
    match term {
        Expr::Number(_) => Ok(()),
        Expr::Name(word) => used(visible, word),
        Expr::At { name, at } => {
            indexed(visible, name)?;
            in_term(visible, at)
        }
        Expr::Call { name, args } => in_call(visible, name, args.as_slice()),
        Expr::Unary { of, .. } => in_term(visible, of),
        Expr::Binary { left, right, .. } => {
            in_term(visible, left)?;
            in_term(visible, right)
        }
    }
}

/// The first fault in a call: its name with the number of its arguments, and then the arguments.
#[cycle(expression)]
#[tactic(auto, using(crate::proofs::NamingRules::NameSteps::arguments_counted))]
fn in_call(visible: &Visible<'_>, name: &Word, args: &[Expr]) -> Result<(), NameFault>
    ensures { result_err result ≡ (fault_of_call (find name.now.name (visible_in visible.now)) (count_of (terms_of args.now)) name.now.line
        then in_terms (visible_in visible.now) (terms_of args.now)) }
{
    called(visible, name, args.len())?;
    for arg in args {
        in_term(visible, arg)?;
    }
    Ok(())
}

/// Returns the first fault in a statement, given the innermost block around it. What the statement declares is visible afterwards.
#[cycle(walk)]
fn in_statement<'a>(
    visible: &mut Visible<'a>,
    around: Around,
    statement: &'a Stmt,
) -> Result<(), NameRefusal>
    ensures exact { Finds result (in_statement (visible_in visible.old) around (statement_of statement.now)) }
    ensures visible { OnOk result (visible_in visible.new ≡ scope_after (statement_of statement.now) (visible_in visible.old)) }
    ensures outer { OnOk result (StaysVisible visible.old visible.new) }
{
    match statement {
        Stmt::Let { name, value } => {
            declared_new(visible.find(&name.name), name.line)?;
            in_term(visible, value)?;
            visible.add_local(&name.name)?;
        }
        Stmt::Assign { name, value } => {
            used(visible, name)?;
            in_term(visible, value)?;
        }
        Stmt::AssignAt { name, at, value } => {
            indexed(visible, name)?;
            in_term(visible, at)?;
            in_term(visible, value)?;
        }
        Stmt::Call { name, args } => in_call(visible, name, args.as_slice())?,
        Stmt::Out(value) => in_term(visible, value)?,
        Stmt::If { test, then, other } => {
            in_term(visible, test)?;
            in_block(visible, around, then.as_slice())?;
            in_block(visible, around, other.as_slice())?;
        }
        Stmt::While { test, body } => {
            in_term(visible, test)?;
            in_block(visible, around, body.as_slice())?;
        }
        Stmt::Atomic(body) => in_block(visible, Around::Atomic, body.as_slice())?,
        Stmt::Spawn(body) => in_block(visible, Around::Spawn, body.as_slice())?,
        Stmt::Sync => {}
        Stmt::Cancel { line } => cancelled_in(around, *line)?,
        Stmt::Return { line, value } => {
            returned_from(around, *line)?;
            in_term(visible, value)?;
        }
    }
    Ok(())
}

/// Returns the first fault in the statements of a block, given the innermost block around them. What they declare is
/// visible to the block's end.
#[cycle(walk)]
fn in_block<'a>(
    visible: &mut Visible<'a>,
    around: Around,
    body: &'a [Stmt],
) -> Result<(), NameRefusal>
    ensures exact { Finds result (in_block (visible_in visible.old) around (block_of body.now)) }
    ensures outer { OnOk result (visible.new ≡ visible.old) }
{
    let outer = visible.locals();
    for statement in body {
        in_statement(visible, around, statement)?;
    }
    visible.forget(outer)?;
    Ok(())
}

/// Returns the first fault in the parameters of a function, which are visible afterwards.
fn in_params<'a>(visible: &mut Visible<'a>, params: &'a [Word]) -> Result<(), NameRefusal>
    ensures exact { Finds result (in_params (visible_in visible.old) params.now) }
    ensures visible { OnOk result (visible_in visible.new ≡ scope_with_params (visible_in visible.old) params.now) }
{
    for word in params {
        declared_new(visible.find(&word.name), word.line)?;
        visible.add_local(&word.name)?;
    }
    Ok(())
}

/// Returns the first fault in a function.
fn in_function<'a>(
    names: &'a Scope,
    alloc: Global,
    params: &'a [Word],
    body: &'a [Stmt],
) -> Result<(), NameRefusal>
    ensures { Finds result (in_params names.now params.now then in_block (scope_with_params names.now params.now) Neither (block_of body.now)) }
{
    let mut visible = Visible::new(alloc, names);
    in_params(&mut visible, params)?;
    in_block(&mut visible, Around::Neither, body)
}

/// Returns the first fault in the functions among the items. `names` are the names of the items.
fn in_functions<'a>(names: &'a Scope, alloc: Global, items: &'a [Item]) -> Result<(), NameRefusal>
    ensures { Finds result (in_functions names.now (map declaration_of items.now)) }
{
    for item in items {
        if let Item::Func { params, body, .. } = item {
            in_function(names, alloc, params, body)?;
        }
    }
    Ok(())
}

/// Whether an item is the function `main`.
fn is_main(item: &Item) -> bool
    ensures { result ≡ is_main (declaration_of item.now) }
{
    match item {
        Item::Func { name, .. } => name.as_str() == "main",
        Item::Cell { .. } => false,
    }
}

/// The number of the item that is the function `main`.
fn main_of(items: &[Item]) -> Option<usize>
    ensures { result ≡ position_from (λ item. is_main (declaration_of item)) 0 items.now }
{
    items.iter().position(|item| is_main(item))
}

/// The fault that there is no function `main`.
fn without_main(items: &[Item]) -> Result<(), NameFault>
    ensures { result_err result ≡ without_main (main_of (map declaration_of items.now)) }
{
    match main_of(items) {
        Some(_) => Ok(()),
        None => Err(NameFault {
            kind: NameKind::NoMain,
            line: 0,
        }),
    }
}

/// Returns what the items of a tree declare, or its first naming fault with the line of the name. Items come first, in
/// the order of the text, then the functions, each from its first token, and last whether there is a `main`.
pub(crate) fn checked(alloc: Global, items: &[Item]) -> Result<Declared, NameRefusal>
    ensures exact { Finds result (naming_fault (map declaration_of items.now)) }
    ensures declared { IfOk result (IsAllOf (map declaration_of items.now)) }
{
    let declared = Declared::of_items(alloc, items)?;
    in_functions(&declared.names, alloc, items)?;
    without_main(items)?;
    Ok(declared)
}
