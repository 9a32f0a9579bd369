//! The program of a load.
ghost use Rattle.std.specs.Prelude.{◌≡◌, ◌≤◌, ◌<◌, ◌++◌, ◌∷◌, [], map, pos, All, IfOk, OnOk};
ghost use Rattle.std.specs.List.{range_with_len};
ghost use Rattle.cw_text.specs.Syntax.{assign, binary, block_of, declaration_of, declare, number, run, spawn, statement_of, sync, term_of, terms_of, tree_of};
ghost use Rattle.cw_text.specs.declared.ast.Op.TheVariants.{Add};
ghost use Rattle.cw_gen.specs.Load.{accounts, after_transfer, block, group, group_count, group_function, group_name, load_tree, load_main, name_term, spawned_group, spawned_transfer, state_after, summed, summing, transfer_from, transfer_function, transfers, word};

use crate::pieces::{account, binary, changed, named, word};
use cw_base::{OutOfMemory, Text};
use cw_io::Lcg;
use cw_text::{Ast, Expr, Item, Op, Stmt, Word};
use std::alloc::Global;

fn number(value: u32) -> Expr
    ensures { term_of result ≡ number (pos value) }
{
    Expr::Number(i64::from(value))
}

/// Makes a statement that spawns a call.
#[tactic(auto, using(crate::proofs::Blocks::inner_is))]
fn spawned(alloc: Global, name: Word, args: Vec<Expr>) -> Result<Stmt, OutOfMemory>
    ensures { IfOk result (λ s. statement_of s ≡ spawn (block (run name (terms_of args.items) ∷ []))) }
{
    let mut body = Vec::new(alloc);
    body.push(Stmt::Call { name, args })?;
    Ok(Stmt::Spawn(body))
}

/// Makes a statement that spawns the transfer drawn next.
fn transfer(alloc: Global, draws: &mut Lcg) -> Result<Stmt, OutOfMemory>
    ensures drawn { OnOk result (draws.new ≡ after_transfer draws.old) }
    ensures call { IfOk result (λ s. statement_of s ≡ spawned_transfer (transfer_from draws.old)) }
{
    let from = draws.draw() % 64;
    let to = draws.draw() % 64;
    let amount = draws.draw() % 100;
    let mut args = Vec::new(alloc);
    args.push(number(from))?;
    args.push(number(to))?;
    args.push(number(amount))?;
    spawned(alloc, word(alloc, b"t")?, args)
}

/// Makes the statements of `count` transfers.
fn transfers(alloc: Global, draws: &mut Lcg, count: u32) -> Result<Vec<Stmt>, OutOfMemory>
    ensures drawn { OnOk result (draws.new ≡ state_after count draws.old) }
    ensures calls { IfOk result (λ body. map statement_of body.items ≡ map spawned_transfer (transfers count draws.old)) }
{
    let mut body = Vec::new(alloc);
    for _drawn in 0..count {
        body.push(transfer(alloc, draws)?)?;
    }
    Ok(body)
}

/// Returns the name of a group.
#[tactic(auto, using(crate::proofs::Names::group_name_is_ascii))]
fn group_name(alloc: Global, group: u32) -> Result<Text, OutOfMemory>
    ensures { IfOk result (λ name. name ≡ group_name group) }
{
    let name = format!(in alloc; "g{group}")?;
    Text::from_ascii(alloc, name.as_bytes())
}

/// Makes the function of a group of `count` transfers.
#[tactic(auto, using(crate::proofs::Blocks::block_is))]
fn group(alloc: Global, draws: &mut Lcg, group: u32, count: u32) -> Result<Item, OutOfMemory>
    ensures drawn { OnOk result (draws.new ≡ state_after count draws.old) }
    ensures function { IfOk result (λ item. declaration_of item ≡ group_function group (transfers count draws.old)) }
{
    let name = group_name(alloc, group)?;
    let body = transfers(alloc, draws, count)?;
    let params = Vec::new(alloc);
    Ok(Item::Func {
        name,
        line: 1,
        params,
        body,
    })
}

/// Returns the number of groups for `count` transfers.
fn group_count(count: u32) -> u32
    requires { count ≤ 20000 }
    ensures { result ≡ group_count count }
{
    (count + 15) / 16
}

/// Adds the functions of all groups for `count` transfers.
fn push_groups(alloc: Global, items: &mut Vec<Item>, count: u32) -> Result<(), OutOfMemory>
    requires { count ≤ 20000 }
    ensures { OnOk result (map declaration_of items.new.items ≡
        map declaration_of items.old.items ++ map (λ k. group_function k (group k (transfers count count))) (range_with_len 0 (group_count count))) }
{
    let mut draws = Lcg::new(u64::from(count));
    for place in 0..group_count(count) {
        let size = (count - 16 * place).min(16);
        items.push(group(alloc, &mut draws, place, size)?)?;
    }
    Ok(())
}

/// `fn t(i, j, x) { .. }`
#[tactic(auto, using(crate::proofs::Blocks::inner_is))]
fn transfer_function(alloc: Global) -> Result<Item, OutOfMemory>
    ensures { IfOk result (λ item. declaration_of item ≡ transfer_function) }
{
    let mut params = Vec::new(alloc);
    params.push(word(alloc, b"i")?)?;
    params.push(word(alloc, b"j")?)?;
    params.push(word(alloc, b"x")?)?;
    let mut changes = Vec::new(alloc);
    changes.push(changed(alloc, b"i", Op::Sub)?)?;
    changes.push(changed(alloc, b"j", Op::Add)?)?;
    let mut body = Vec::new(alloc);
    body.push(Stmt::Atomic(changes))?;
    let name = Text::from_ascii(alloc, b"t")?;
    Ok(Item::Func {
        name,
        line: 1,
        params,
        body,
    })
}

/// `cell a[64] = 1000;`
fn accounts(alloc: Global) -> Result<Item, OutOfMemory>
    ensures { IfOk result (λ item. declaration_of item ≡ accounts) }
{
    let name = Text::from_ascii(alloc, b"a")?;
    Ok(Item::Cell {
        name,
        line: 1,
        len: 64,
        init: 1000,
    })
}

/// `NAME = NAME + ..;`
fn grown(alloc: Global, text: &[u8], by: Expr) -> Result<Stmt, OutOfMemory>
    requires { All (λ b. b < 128) text.now }
    ensures { IfOk result (λ s. statement_of s ≡ assign (word text.now) (binary Add (name_term text.now) (term_of by))) }
{
    let value = binary(alloc, Op::Add, named(alloc, text)?, by)?;
    let name = word(alloc, text)?;
    Ok(Stmt::Assign { name, value })
}

/// `let NAME = 0;`
fn zero(alloc: Global, text: &[u8]) -> Result<Stmt, OutOfMemory>
    requires { All (λ b. b < 128) text.now }
    ensures { IfOk result (λ s. statement_of s ≡ declare (word text.now) (number (pos 0))) }
{
    let name = word(alloc, text)?;
    Ok(Stmt::Let {
        name,
        value: number(0),
    })
}

/// `while k < 64 { s = s + a[k]; k = k + 1; }`
#[tactic(auto, using(crate::proofs::Blocks::inner_is))]
fn sums(alloc: Global) -> Result<Stmt, OutOfMemory>
    ensures { IfOk result (λ s. statement_of s ≡ summing) }
{
    let test = binary(alloc, Op::Lt, named(alloc, b"k")?, number(64))?;
    let mut body = Vec::new(alloc);
    body.push(grown(alloc, b"s", account(alloc, b"k")?)?)?;
    body.push(grown(alloc, b"k", number(1))?)?;
    Ok(Stmt::While { test, body })
}

/// Adds to main's body the statements that sum all accounts and output the sum.
fn push_sum(alloc: Global, body: &mut Vec<Stmt>) -> Result<(), OutOfMemory>
    ensures { OnOk result (map statement_of body.new.items ≡ map statement_of body.old.items ++ summed) }
{
    body.push(zero(alloc, b"k")?)?;
    body.push(zero(alloc, b"s")?)?;
    body.push(sums(alloc)?)?;
    body.push(Stmt::Out(named(alloc, b"s")?))?;
    Ok(())
}

/// Adds to main's body the spawned calls of `groups` groups.
fn push_calls(alloc: Global, body: &mut Vec<Stmt>, groups: u32) -> Result<(), OutOfMemory>
    ensures { OnOk result (map statement_of body.new.items ≡ map statement_of body.old.items ++ map spawned_group (range_with_len 0 groups)) }
{
    for place in 0..groups {
        let name = Word {
            name: group_name(alloc, place)?,
            line: 1,
        };
        body.push(spawned(alloc, name, Vec::new(alloc))?)?;
    }
    Ok(())
}

/// `fn main() { .. }`, with `groups` groups.
#[tactic(auto, using(crate::proofs::Blocks::block_is))]
fn main_function(alloc: Global, groups: u32) -> Result<Item, OutOfMemory>
    ensures { IfOk result (λ item. declaration_of item ≡ load_main groups) }
{
    let mut body = Vec::new(alloc);
    push_calls(alloc, &mut body, groups)?;
    body.push(Stmt::Sync)?;
    push_sum(alloc, &mut body)?;
    let name = Text::from_ascii(alloc, b"main")?;
    let params = Vec::new(alloc);
    Ok(Item::Func {
        name,
        line: 1,
        params,
        body,
    })
}

/// Makes the program of `count` transfers between 64 accounts of 1,000 each. A generator that begins with `count` draws three
/// numbers for each transfer: the account that pays and the one that receives, each modulo 64, and the amount modulo 100. Each 16
/// transfers have a function that spawns them, and so has the remainder. Main spawns these functions, waits, and outputs the sum of
/// all accounts. Every line is 1, and so is the language. The only error is out of memory.
pub fn load_program(alloc: Global, count: u32) -> Result<Ast, OutOfMemory>
    requires some { 1 ≤ count }
    requires most { count ≤ 20000 }
    ensures tree { IfOk result (λ ast. tree_of ast ≡ load_tree count) }
    ensures language { IfOk result (λ ast. ast.language ≡ 1) }
{
    let mut items = Vec::new(alloc);
    items.push(accounts(alloc)?)?;
    items.push(transfer_function(alloc)?)?;
    push_groups(alloc, &mut items, count)?;
    items.push(main_function(alloc, group_count(count))?)?;
    Ok(Ast { language: 1, items })
}
