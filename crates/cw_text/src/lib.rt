//! Texts of programs: the syntax tree, the reader that makes it from a text, and the printer that makes a text of it.
//! A program has cells, plain ones and arrays, and functions. Its statements are `let`, assignment, call, `out`, `if`,
//! `while`, `atomic`, `spawn`, `sync` and `return`, and in language 2 also `cancel`.
//! Contracts cite `specs/Text.antt` (what a whole text reads as). It is based on `specs/Lexemes.antt` (tokens),
//! `specs/Grammar.antt` (the program that tokens are, or their first fault) and `specs/Syntax.antt` (the tree
//! without its places in memory). They also cite `specs/Written.antt` (the grammar, one alternative at a time),
//! `specs/Places.antt` (the bytes of each token), `specs/Printed.antt` (the tokens of a tree), `specs/PrintedText.antt`
//! (the text of a tree), `specs/WithoutLines.antt` (the same tree except for its lines) and `specs/Cancels.antt`
//! (whether a tree contains a `cancel`).
#![tactic(auto)]

ghost use Rattle.std.specs.Prelude.{ℕ, List, length, false, Ok, ◌≡◌, ◌≤◌};
ghost use Rattle.cw_text.specs.declared.terminal.Terminal.{Terminal};
ghost use Rattle.cw_text.specs.Cancels.{has_cancel};
ghost use Rattle.cw_text.specs.Lexemes.{Lexemes, keywords, keywords_of, lexemes};
ghost use Rattle.cw_text.specs.Places.{Follow};
ghost use Rattle.cw_text.specs.Grammar.{program_of};
ghost use Rattle.cw_text.specs.Printed.{HasSmallNumbers, IsReadable, only_tree_lines, printed, tokens};
ghost use Rattle.cw_text.specs.PrintedRow.{Worked};
ghost use Rattle.cw_text.specs.PrintedText.{AreSpellable, printed_text};
ghost use Rattle.cw_text.specs.Syntax.{Declaration, Source};
ghost use Rattle.cw_text.specs.Text.{language_of, program, reading, source_in};
ghost use Rattle.cw_text.specs.WithoutLines.{IsReadAs, IsSourceReadAs, tokens_without_lines, tree_without_lines};
ghost use Rattle.cw_text.specs.Written.{IsHeading, IsProgram};
ghost use Rattle.cw_text.specs.Worked.{Tokens, Programs, Arrays, Choices, Functions, Heights, Brackets, Indexes, Branches, Calls, Languages, Refusals};

mod ast;
mod cursor;
mod expr;
mod fault;
mod item;
mod letters;
mod parser;
mod print;
mod scan;
mod spelling;
mod stmt;
mod terminal;
mod text;

pub use ast::{Ast, Expr, Item, Op, Stmt, Word};
pub use fault::{TextFault, TextKind, TextRefusal};
pub use print::print_program;
pub use terminal::Terminal;
pub use text::{read_language, read_long, read_program};

/// Worked texts.
pub fn worked_texts()
    ensures tokens { Tokens }
    ensures programs { Programs }
    ensures arrays { Arrays }
    ensures choices { Choices }
    ensures functions { Functions }
    ensures heights { Heights }
    ensures brackets { Brackets }
    ensures indexes { Indexes }
    ensures branches { Branches }
    ensures calls { Calls }
    ensures languages { Languages }
    ensures refusals { Refusals }
{}

/// The tokens of a text follow each other without a hole. The line of a token is 1 plus the number of newlines before it.
pub fn tokens_follow()
    ensures { (words : List Terminal) (text : List ℕ) → Follow words text 0 (lexemes words text) }
{}

/// Tokens are read as a tree exactly if they spell it by the alternatives of the grammar. Their language is the one that they name.
pub fn read_is_written()
    ensures heading { (newest n : ℕ) (xs : Lexemes) → language_of newest xs ≡ Ok n → IsHeading newest n xs }
    ensures headed { (newest n : ℕ) (xs : Lexemes) → IsHeading newest n xs → language_of newest xs ≡ Ok n }
    ensures written { (xs : Lexemes) (ds : List Declaration) → program_of xs ≡ Ok ds → IsProgram ds xs }
    ensures read { (xs : Lexemes) (ds : List Declaration) → IsProgram ds xs → program_of xs ≡ Ok ds }
{}

/// Reading undoes printing: a tree's tokens read as that tree, with its lines, if it is readable. Every tree that was
/// read is readable. Only the lines of names, of `cancel` and of `return` count.
pub fn printed_is_read()
    ensures read { (ds : List Declaration) → IsReadable ds → program_of (printed ds) ≡ Ok ds }
    ensures lines { (xs ys : Lexemes) (ds : List Declaration) → only_tree_lines xs ≡ only_tree_lines ys →
        program_of xs ≡ Ok ds → program_of ys ≡ Ok ds }
    ensures readable { (xs : Lexemes) (ds : List Declaration) →
        HasSmallNumbers xs → program_of xs ≡ Ok ds → IsReadable ds }
    ensures texts { (newest : ℕ) (text : List ℕ) (s : Source) → 1 ≤ newest →
        program newest text ≡ Ok s → program_of (printed s.items) ≡ Ok s.items }
    ensures worked { Worked }
{}

/// Reading undoes printing, for whole texts: the printed text of a source reads as that source, except for its lines,
/// if the text is short enough and the tree is readable. Every tree that was read is readable. Printing does not depend
/// on lines, so a printed text is printed as itself again.
pub fn reading_undoes_printing()
    ensures tokens { (xs ys : Lexemes) (ds : List Declaration) → tokens_without_lines xs ≡ tokens_without_lines ys →
        program_of xs ≡ Ok ds → IsReadAs (program_of ys) ds }
    ensures trees { (newest most : ℕ) (s : Source) → 1 ≤ s.language → s.language ≤ newest → newest ≤ 2 →
        IsReadable s.items → AreSpellable (keywords_of s.language) (tokens s.items) →
        length (printed_text s) ≤ most → IsSourceReadAs (reading newest most (printed_text s)) s }
    ensures texts { (newest : ℕ) (text : List ℕ) (s : Source) → 1 ≤ newest → newest ≤ 2 → program newest text ≡ Ok s →
        length (printed_text s) ≤ 1048576 → IsSourceReadAs (program newest (printed_text s)) s }
    ensures long { (text : List ℕ) (s : Source) → reading 2 67108864 text ≡ Ok s →
        length (printed_text s) ≤ 67108864 → IsSourceReadAs (reading 2 67108864 (printed_text s)) s }
    ensures again { (s t : Source) → s.language ≡ t.language → tree_without_lines s.items ≡ tree_without_lines t.items →
        printed_text s ≡ printed_text t }
{}

/// The heading that names a language changes no older text: if the tokens of a text, with the keywords of language 1,
/// are a program, the text reads as that program, of language 1, for every newest language.
pub fn older_texts_stay()
    ensures { (newest : ℕ) (text : List ℕ) (ds : List Declaration) → program_of (lexemes keywords text) ≡ Ok ds →
        source_in (language_of newest (lexemes keywords text)) text ≡ Ok (record { language = 1; items = ds }) }
{}

/// In language 1 `cancel` is a name, so no text of language 1 has the statement.
pub fn language_one_has_no_cancel()
    ensures language { (newest : ℕ) (text : List ℕ) (s : Source) → 1 ≤ newest →
        program newest text ≡ Ok s → s.language ≡ 1 → has_cancel s.items ≡ false }
    ensures newest { (text : List ℕ) (s : Source) → program 1 text ≡ Ok s → has_cancel s.items ≡ false }
{}
