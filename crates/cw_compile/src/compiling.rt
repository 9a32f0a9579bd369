ghost use Rattle.std.specs.Prelude.{◌≡◌, map, IfOk};
ghost use Rattle.cw_text.specs.Syntax.{declaration_of, tree_of};
ghost use Rattle.cw_strand.specs.Names.{naming_fault};
ghost use Rattle.cw_strand.specs.Compilation.{funcs_from, instrs_from};
ghost use Rattle.cw_strand.specs.Programs.{IsProgramOf};
ghost use Rattle.cw_compile.specs.NamingRules.Scopes.{Finds};

use crate::NameRefusal;
use crate::elements::Elements;
use crate::emitter::Emitter;
use crate::functions::Functions;
use crate::naming::{Declared, checked};
use cw_base::{OutOfMemory, Seq};
use cw_code::{Code, CodeRefusal, Program, verify};
use cw_text::{Ast, Item};
use std::alloc::Global;

/// Returns the code of the functions among the items, given the declared cells and the numbers of the functions.
fn code_of<'a>(
    alloc: Global,
    declared: &'a Declared,
    functions: Functions<'a>,
    items: &'a [Item],
) -> Result<Code, OutOfMemory>
    ensures { IfOk result (λ c. c ≡ record {
      cells = declared.now.elements;
      funcs = funcs_from declared.now.cells.items functions.entry 0 (map declaration_of items.now);
      instrs = instrs_from declared.now.cells.items functions.entry 0 (map declaration_of items.now);
    }) }
{
    let elements = Elements::of_cells(alloc, declared.cells.as_slice())?;
    let mut emitter = Emitter::new(alloc, elements, functions);
    let mut funcs = Vec::new(alloc);
    for item in items {
        if let Item::Func { params, body, .. } = item {
            funcs.push(emitter.function(params.as_slice(), body.as_slice())?)?;
        }
    }
    Ok(Code {
        cells: declared.elements,
        funcs: Seq::from_vec(funcs),
        instrs: emitter.code.into_seq(),
    })
}

/// Returns the compiled program, or the first naming fault with the line of its name. Items come first, in the order of
/// the text, then the functions, each from its first token, and last whether there is a `main`. A tree whose code would
/// have 2^32 or more instructions is refused as out of memory. No text that can be read has such a tree.
pub fn compile(alloc: Global, ast: &Ast) -> Result<Program, NameRefusal>
    ensures named { Finds result (naming_fault (tree_of ast.now)) }
    ensures compiled { IfOk result (IsProgramOf (tree_of ast.now)) }
{
    let items = ast.items.as_slice();
    let declared = checked(alloc, items)?;
    let functions = Functions::of_items(alloc, items)?;
    let main = functions.number("main");
    let code = code_of(alloc, &declared, functions, items)?;
    match verify(alloc, code) {
        Ok(code) => Ok(Program {
            code,
            cells: Seq::from_vec(declared.cells),
            main,
        }),
        Err(CodeRefusal::OutOfMemory) => Err(NameRefusal::OutOfMemory),
        Err(CodeRefusal::Code(_)) => unreachable!(),
    }
}
