ghost use Rattle.std.specs.Prelude.{◌≡◌, ◌++◌, ◌<◌, IfOk, IsTrue, List, OnOk, string_bytes};
ghost use Rattle.std.specs.List.{flat_map};
ghost use Rattle.cw_code.specs.declared.CellInfo.{CellInfo};
ghost use Rattle.cw_tree.specs.Nodes.{is_strand, stamp_of};
ghost use Rattle.cw_record.specs.Order.{ending_strand};
ghost use Rattle.cw_record.specs.Records.{BlocksEnded, IsCoherentRun, IsNumberedDepthFirst};
ghost use Rattle.cw_race.specs.Races.{AreRaces};
ghost use Rattle.cw_report.specs.RunNames.{HasElements, HasStrands};
ghost use Rattle.cw_top.specs.RacesTold.{IsRacesText, access_text, race_line, races_text};

use cw_base::OutOfMemory;
use cw_code::CellInfo;
use cw_order::Steps;
use cw_race::{Race, races};
use cw_record::{Record, RecordEnd};
use cw_report::{RunNames, result_text};
use cw_tree::Tree;
use std::alloc::Global;
use std::fmt::Write;
use std::marker::Brand;
use std::sync::ledger::{Blank, Ledger};

// Returns the stamp of a node.
fn stamp_of(tree: &Tree, node: u32) -> u64
    ensures { result ≡ stamp_of tree.now node }
{
    match tree.nodes().get(node as usize) {
        Some(node) => node.stamp,
        None => 0,
    }
}

// Writes an access: its strand and its stamp.
fn push_access(
    text: &mut String,
    tree: &Tree,
    names: &RunNames<'_>,
    node: u32,
) -> Result<(), OutOfMemory>
    requires { HasStrands names.now tree.now }
    ensures { OnOk result (string_bytes text.new ≡ string_bytes text.old ++ access_text tree.now node) }
{
    names.push_strand(text, tree, node)?;
    write!(text, "@{}", stamp_of(tree, node))?;
    Ok(())
}

fn push_race(
    text: &mut String,
    tree: &Tree,
    names: &RunNames<'_>,
    race: &Race,
) -> Result<(), OutOfMemory>
    requires { HasStrands names.now tree.now }
    ensures { OnOk result ((cells : List CellInfo) → HasElements names.now cells → string_bytes text.new ≡ string_bytes text.old ++ race_line cells tree.now race.now) }
{
    text.push_str("race ")?;
    names.push_element(text, race.cell)?;
    text.push_str(" first ")?;
    push_access(text, tree, names, race.first)?;
    text.push_str(" second ")?;
    push_access(text, tree, names, race.second)?;
    text.push_str("\n")?;
    Ok(())
}

fn push_races(
    text: &mut String,
    tree: &Tree,
    cells: &[CellInfo],
    races: &[Race],
) -> Result<(), OutOfMemory>
    ensures { OnOk result (string_bytes text.new ≡ string_bytes text.old ++ flat_map (race_line cells.now tree.now) races.now) }
{
    let alloc = *text.allocator();
    let names = RunNames::of(alloc, cells, tree)?;
    for race in races {
        push_race(text, tree, &names, race)?;
    }
    Ok(())
}

// Returns the text of these races.
fn listed(
    alloc: Global,
    tree: &Tree,
    cells: &[CellInfo],
    races: &[Race],
) -> Result<String, OutOfMemory>
    ensures { IfOk result (λ text. string_bytes text ≡ races_text cells.now tree.now races.now) }
{
    let mut text = String::new(alloc);
    push_races(&mut text, tree, cells, races)?;
    write!(text, "races {}\nend\n", races.len())?;
    Ok(text)
}

// Returns the races of a run of one worker, with a counter of steps of its own.
fn races_counted<L: Ledger>(
    alloc: Global,
    run: &Record,
    blank: Blank,
) -> Result<Vec<Race>, OutOfMemory>
    requires name { blank.name ≡ L.name }
    requires parts { blank.parts ≡ L.parts }
    requires some { 0 < L.parts }
    requires coherent { IsCoherentRun run.now }
    requires numbered { IsNumberedDepthFirst run.now.tree }
    requires blocks { BlocksEnded run.now.tree run.now.end }
    ensures { IfOk result (λ races. AreRaces run.now.tree races.items) }
{
    let mut steps = Steps::<L>::new(blank);
    races(alloc, run, &mut steps)
}

/// Returns the text of the races of a run of one worker: a line for each, by rising cells, then their number and `end`. If the run
/// did not finish, it is the one line that says how it ended.
pub fn races_of_run(alloc: Global, run: &Record) -> Result<Vec<u8>, OutOfMemory>
    requires strand { IsTrue (is_strand run.now.tree (ending_strand run.now.end)) }
    requires coherent { IsCoherentRun run.now }
    requires numbered { IsNumberedDepthFirst run.now.tree }
    requires blocks { BlocksEnded run.now.tree run.now.end }
    ensures { IfOk result (λ text. IsRacesText run.now.program.cells run.now.tree run.now.end text.items) }
{
    match &run.end {
        RecordEnd::Finished { .. } => {
            let races = races_counted::<Brand>(alloc, run, Blank::new(1))?;
            let cells = run.program.cells.as_slice();
            Ok(listed(alloc, &run.tree, cells, races.as_slice())?.into_bytes())
        }
        _ => result_text(alloc, run),
    }
}
