use crate::{pieces, shown, sources, strands, texts};
use cw_base::OutOfMemory;
use std::alloc::Global;

/// What is asked of the program of a text.
fn of_source(
    alloc: Global,
    ask: &str,
    text: &[u8],
    shown: &mut Vec<u8>,
) -> Result<(), OutOfMemory> {
    match ask.as_bytes() {
        b"read" => sources::read(alloc, text, shown),
        b"print" => sources::print(alloc, text, shown),
        b"names" => sources::names(alloc, text, shown),
        b"code" => sources::code(alloc, text, shown),
        _ => strands::answer(alloc, ask, text, shown),
    }
}

/// Shows what is asked of a text:
/// - `read`: whether it is a program, and its first fault if not;
/// - `print`: as what its program is printed;
/// - `names`: whether its program is compiled, and the first naming fault if not;
/// - `code`: the code of its program, and the locals of the first function;
/// - `operations`: the text of the code that its lines name; `rules`: the first rule that this code breaks; `program`: whether it makes a program;
/// - `load`: the program of a load of as many as the text says;
/// - `steps FUEL SIZE`, `again FUEL SIZE` and `beside FUEL SIZE`: what its strand wants, as `strands.rt` says.
pub(crate) fn answer(
    alloc: Global,
    ask: &str,
    written: &str,
    shown: &mut Vec<u8>,
) -> Result<(), OutOfMemory> {
    match ask.as_bytes() {
        b"operations" => pieces::operations(alloc, written, shown),
        b"rules" => pieces::rules(alloc, written, shown),
        b"program" => pieces::program(alloc, written, shown),
        b"load" => sources::load(alloc, texts::count(written), shown),
        _ => {
            let text = texts::whole(alloc, written)?;
            of_source(alloc, ask, text.as_slice(), shown)
        }
    }
}
