ghost use Rattle.std.specs.Prelude.{◌≡◌, ◌+◌, ◌<◌, ◌≤◌, length};
ghost use Rattle.cw_xconf.specs.Costs.{most_looks};

use cw_order::Steps;
use cw_trace::{Columns, Gaps, Tier};
use cw_tree::{Kind, Mark, Tree};
use cw_xconf::{Held, Verdict, ask, ask_by, contains_by};
use std::alloc::Global;
use std::marker::Brand;
use std::sync::ledger::{Blank, Ledger};
use std::test::Fail;

/// A call of a tier, or a write of a gap's word. A fork is given the word of its parent's gap.
#[derive(Clone, Copy)]
enum Call {
    Fork(u32),
    Split(u32),
    Merge(u32),
    Word(u32, u64),
}

/// What is asked: the verdict for an asker, or whether a block, by its begin and column, is above the access.
#[derive(Clone, Copy)]
enum Question {
    Ask(u32),
    Block(u64, u32),
}

fn word_of(gaps: &Gaps, gap: u32) -> u64 {
    let gap = gap as usize;
    if gap < gaps.words.len() {
        gaps.words[gap]
    } else {
        0
    }
}

fn fork(tier: &mut Tier, gaps: &Gaps, parent: u32) {
    if parent < tier.used() {
        let word = word_of(gaps, tier.gap(parent));
        let _answer = tier.fork(word, parent);
    }
}

fn split(tier: &mut Tier, fork: u32) {
    if fork < tier.used() && fork % 2 == 1 && !tier.is_trace(fork) {
        let _answer = tier.split(fork);
    }
}

fn merge(tier: &mut Tier, fork: u32) {
    if fork < tier.used() && fork % 2 == 1 && tier.is_trace(fork) {
        tier.merge(fork);
    }
}

fn make(tier: &mut Tier, gaps: &mut Gaps, call: Call) {
    match call {
        Call::Fork(parent) => fork(tier, gaps, parent),
        Call::Split(fork) => split(tier, fork),
        Call::Merge(fork) => merge(tier, fork),
        Call::Word(gap, word) => {
            if (gap as usize) < gaps.words.len() {
                gaps.set(gap, word);
            }
        }
    }
}

/// Writes the answer on an access, if it is within the bounds of both calls.
fn answer<K: Ledger, L: Ledger>(
    alloc: Global,
    tier: &Tier,
    gaps: &Gaps,
    last: Mark,
    question: Question,
    looks: &mut Steps<K>,
    compares: &mut Steps<L>,
) -> Result<String, Fail>
    ensures looks { looks.new ≤ looks.old + most_looks }
    ensures compares { compares.new ≤ compares.old + 5 }
{
    Ok(match question {
        Question::Ask(asker) => {
            let verdict = ask(tier, gaps, last, asker, looks, compares);
            format!(in alloc; "{verdict:?} ")?
        }
        Question::Block(stamp, strand) => {
            let mut held = Held {
                tier: tier.reader(),
                gaps: gaps.reader(),
            };
            let above = contains_by(&mut held, Mark { strand, stamp }, last, looks, compares);
            format!(in alloc; "{above} ")?
        }
    })
}

/// Writes the answers after calls of a tier with room for `room` columns.
fn answers<K: Ledger, L: Ledger>(
    alloc: Global,
    blanks: (Blank, Blank),
    room: u32,
    calls: &[Call],
    questions: &[(u32, u64, Question)],
) -> Result<String, Fail>
    requires looks { (blanks.0.name ≡ K.name) × (blanks.0.parts ≡ K.parts) × (0 < K.parts) }
    requires compares { (blanks.1.name ≡ L.name) × (blanks.1.parts ≡ L.parts) × (0 < L.parts) }
    requires room { 0 < room }
{
    let mut looks = Steps::<K>::new(blanks.0);
    let mut compares = Steps::<L>::new(blanks.1);
    let (tier, gaps) = after(alloc, room, calls)?;
    let text = answers_of(alloc, &tier, &gaps, questions, &mut looks, &mut compares);
    drop(gaps);
    drop(tier);
    text
}

/// A tier with so much room and its gaps after these calls.
fn after(alloc: Global, room: u32, calls: &[Call]) -> Result<(Tier, Gaps), Fail>
    requires { 0 < room }
{
    let mut gaps = Gaps::with_strands(alloc, room)?;
    match Tier::with_strands(alloc, room) {
        Ok(mut tier) => {
            for call in calls {
                make(&mut tier, &mut gaps, *call);
            }
            Ok((tier, gaps))
        }
        Err(fault) => {
            drop(gaps);
            Err(fault.into())
        }
    }
}

/// What is answered on a tier and its gaps.
fn answers_of<K: Ledger, L: Ledger>(
    alloc: Global,
    tier: &Tier,
    gaps: &Gaps,
    questions: &[(u32, u64, Question)],
    looks: &mut Steps<K>,
    compares: &mut Steps<L>,
) -> Result<String, Fail> {
    let mut text = String::new(alloc);
    for &(strand, stamp, question) in questions {
        let last = Mark { strand, stamp };
        let line = answer(alloc, tier, gaps, last, question, looks, compares)?;
        text.push_str(line.as_str())?;
    }
    Ok(text)
}

#[test]
fn verdicts_of_a_tier(rt: HostRuntime) -> Result<(), Fail> {
    const WITHIN: &[Call] = &[
        Call::Fork(0),
        Call::Split(1),
        Call::Word(0, 2),
        Call::Fork(1),
        Call::Split(3),
    ];
    let table: &[(u32, &[Call], &[(u32, u64, Question)], &str)] = &[
        (
            5,
            &[
                Call::Fork(0),
                Call::Split(1),
                Call::Fork(1),
                Call::Split(3),
                Call::Merge(3),
                Call::Word(0, 5),
            ],
            &[
                (4, 3, Question::Ask(2)),
                (1, 6, Question::Ask(2)),
                (1, 6, Question::Ask(1)),
            ],
            "Free Against(5) Within ",
        ),
        (
            3,
            &[Call::Fork(0), Call::Split(1), Call::Word(0, 2)],
            &[(1, 5_002, Question::Ask(2))],
            "Against(2) ",
        ),
        (
            5,
            WITHIN,
            &[
                (3, 4, Question::Ask(2)),
                (3, 4, Question::Ask(4)),
                (4, 5, Question::Ask(3)),
                (1, 3, Question::Ask(2)),
                (1, 3, Question::Ask(4)),
            ],
            "Against(2) Within Within Against(2) Within ",
        ),
        (
            5,
            WITHIN,
            &[
                (3, 4, Question::Block(2, 1)),
                (1, 3, Question::Block(2, 1)),
                (2, 6, Question::Block(2, 1)),
            ],
            "true true false ",
        ),
    ];
    for &(room, calls, questions, wanted) in table {
        if room > 0 {
            let blanks = (Blank::new(1), Blank::new(1));
            let text = answers::<Brand, Brand>(rt.alloc(), blanks, room, calls, questions)?;
            assert!(rt; text.as_str() == wanted);
        }
    }
    Ok(())
}

/// Columns in which nothing agrees: traces that do not exist, and a gap's word that is 5 once and then 0.
#[derive(Drop)]
struct Fickle {
    word: u64,
}

impl Columns for Fickle {
    ghost told = { λ s r a. Unit {0} };

    ghost ready = { λ s. Unit {0} };

    fn owner<K: Ledger>(&mut self, strand: u32, looks: &mut Steps<K>) -> u32 {
        looks.tick();
        strand.saturating_add(4_000_000_000)
    }

    fn lead<K: Ledger>(&mut self, trace: u32, looks: &mut Steps<K>) -> Option<u32> {
        looks.tick();
        Some(trace)
    }

    fn up<K: Ledger>(&mut self, trace: u32, looks: &mut Steps<K>) -> Option<u32> {
        looks.tick();
        Some(trace / 2)
    }

    fn word<K: Ledger>(&mut self, _gap: u32, looks: &mut Steps<K>) -> u64 {
        looks.tick();
        let word = self.word;
        self.word = 0;
        word
    }

    fn inside<K: Ledger, L: Ledger>(
        &mut self,
        _trace: u32,
        _outer: u32,
        looks: &mut Steps<K>,
        compares: &mut Steps<L>,
    ) -> bool {
        looks.tick();
        compares.tick();
        false
    }
}

fn ask_fickle<K: Ledger, L: Ledger>(blanks: (Blank, Blank), stamp: u64) -> Verdict
    requires looks { (blanks.0.name ≡ K.name) × (blanks.0.parts ≡ K.parts) × (0 < K.parts) }
    requires compares { (blanks.1.name ≡ L.name) × (blanks.1.parts ≡ L.parts) × (0 < L.parts) }
{
    let mut looks = Steps::<K>::new(blanks.0);
    let mut compares = Steps::<L>::new(blanks.1);
    let mut columns = Fickle { word: 5 };
    let last = Mark { strand: 1, stamp };
    let verdict = ask_by(&mut columns, last, 2, &mut looks, &mut compares);
    verdict
}

#[test]
fn a_verdict_whatever_is_told(rt: HostRuntime) -> Result<(), Fail> {
    for (stamp, wanted) in [(6, Verdict::Against(5)), (5, Verdict::Against(0))] {
        let blanks = (Blank::new(1), Blank::new(1));
        assert!(rt; ask_fickle::<Brand, Brand>(blanks, stamp) == wanted);
    }
    Ok(())
}

/// A tree and a tier at one moment, the column of each node, and the accesses and askers of the questions. Each asker is a refused
/// access where the strand's next node goes.
#[derive(Drop)]
struct Moment<'a> {
    tree: Tree,
    calls: &'a [Call],
    columns: &'a [u32],
    accesses: &'a [u32],
    askers: &'a [u32],
}

fn mark(moment: &Moment<'_>, n: u32) -> Mark
    requires { n < length moment.now.tree }
{
    let strand = if (n as usize) < moment.columns.len() {
        moment.columns[n as usize]
    } else {
        0
    };
    Mark {
        strand,
        stamp: moment.tree.node(n).stamp,
    }
}

/// Whether the tree has what a verdict says.
fn is_so(tree: &Tree, last: u32, asker: u32, verdict: Verdict) -> bool
    requires last { last < length tree.now }
    requires asker { asker < length tree.now }
{
    let nearest = tree.nua(last);
    match verdict {
        Verdict::Free => nearest.is_none(),
        Verdict::Within => nearest.is_some() && !tree.conflict_plain(last, asker),
        Verdict::Against(begin) => {
            let mut found = false;
            for n in 0..last {
                if tree.is_pending(n) && tree.node(n).stamp == begin && tree.ancestor(n, last) {
                    found = !tree.ancestor(n, asker);
                }
            }
            found && tree.conflict_plain(last, asker)
        }
    }
}

/// Whether this block is above the access, by the columns.
fn is_above<K: Ledger, L: Ledger>(
    held: &mut Held<'_>,
    block: Mark,
    last: Mark,
    looks: &mut Steps<K>,
    compares: &mut Steps<L>,
) -> bool {
    contains_by(held, block, last, looks, compares)
}

/// Returns the outermost pending block above the asker that is not above the access, by the columns.
fn victim_by<K: Ledger, L: Ledger>(
    moment: &Moment<'_>,
    held: &mut Held<'_>,
    last: u32,
    asker: u32,
    looks: &mut Steps<K>,
    compares: &mut Steps<L>,
) -> Option<u32>
    requires last { last < length moment.now.tree }
    requires asker { asker < length moment.now.tree }
{
    let tree = &moment.tree;
    let access = mark(moment, last);
    for n in 0..asker {
        if tree.is_pending(n) && tree.ancestor(n, asker) {
            let block = mark(moment, n);
            if !is_above(held, block, access, looks, compares) {
                return Some(n);
            }
        }
    }
    None
}

/// Writes the verdict on an access for an asker, or `?` if the verdict or the victim is not what the tree has.
fn verdict_told<K: Ledger, L: Ledger>(
    alloc: Global,
    moment: &Moment<'_>,
    tier: &Tier,
    gaps: &Gaps,
    last: u32,
    asker: u32,
    looks: &mut Steps<K>,
    compares: &mut Steps<L>,
) -> Result<String, Fail>
    requires last { last < length moment.now.tree }
    requires asker { asker < length moment.now.tree }
{
    let tree = &moment.tree;
    let by = mark(moment, asker).strand;
    let verdict = ask(tier, gaps, mark(moment, last), by, looks, compares);
    let mut held = Held {
        tier: tier.reader(),
        gaps: gaps.reader(),
    };
    let victim = victim_by(moment, &mut held, last, asker, looks, compares);
    if is_so(tree, last, asker, verdict) && victim == tree.victim_plain(last, asker) {
        Ok(format!(in alloc; "{verdict:?} ")?)
    } else {
        Ok(String::from_str(alloc, "? ")?)
    }
}

/// Writes the verdicts on each access for each asker.
fn verdicts_told<K: Ledger, L: Ledger>(
    alloc: Global,
    moment: &Moment<'_>,
    tier: &Tier,
    gaps: &Gaps,
    looks: &mut Steps<K>,
    compares: &mut Steps<L>,
) -> Result<String, Fail> {
    let size = moment.tree.nodes().len();
    let mut text = String::new(alloc);
    for &last in moment.accesses {
        for &asker in moment.askers {
            if (last as usize) < size && (asker as usize) < size {
                let line = verdict_told(alloc, moment, tier, gaps, last, asker, looks, compares)?;
                text.push_str(line.as_str())?;
            }
        }
    }
    Ok(text)
}

/// Writes the verdicts, on a tier and gap words of their own.
fn verdicts<K: Ledger, L: Ledger>(
    alloc: Global,
    blanks: (Blank, Blank),
    moment: &Moment<'_>,
) -> Result<String, Fail>
    requires looks { (blanks.0.name ≡ K.name) × (blanks.0.parts ≡ K.parts) × (0 < K.parts) }
    requires compares { (blanks.1.name ≡ L.name) × (blanks.1.parts ≡ L.parts) × (0 < L.parts) }
{
    let mut looks = Steps::<K>::new(blanks.0);
    let mut compares = Steps::<L>::new(blanks.1);
    let (tier, gaps) = after(alloc, 9, moment.calls)?;
    let text = verdicts_told(alloc, moment, &tier, &gaps, &mut looks, &mut compares);
    drop(gaps);
    drop(tier);
    text
}

/// What kind of node to add.
#[derive(Clone, Copy)]
enum Bud {
    Strand,
    Fork,
    Block,
    Read { cell: u32, value: i64 },
    Write { cell: u32, value: i64 },
    Tried { cell: u32 },
}

const fn kind_of(bud: Bud) -> Kind {
    match bud {
        Bud::Strand => Kind::Strand,
        Bud::Fork => Kind::Fork,
        Bud::Block => Kind::Block,
        Bud::Read { cell, value } => Kind::Read { cell, value },
        Bud::Write { cell, value } => Kind::Write { cell, value },
        Bud::Tried { cell } => Kind::Tried { cell },
    }
}

/// What a moment is made of: the nodes beneath the root, each with its parent and stamp, and the rest.
#[derive(Clone, Copy)]
struct Plan<'a> {
    nodes: &'a [(u32, Bud, u64)],
    calls: &'a [Call],
    columns: &'a [u32],
    accesses: &'a [u32],
    askers: &'a [u32],
}

/// Makes the tree of these nodes beneath the root, each with its parent and stamp.
fn tree_of(alloc: Global, nodes: &[(u32, Bud, u64)]) -> Result<Tree, Fail> {
    let mut tree = Tree::new(alloc)?;
    for &(parent, bud, stamp) in nodes {
        if parent as usize >= tree.nodes().len() {
            return Err("no parent".into());
        }
        tree.add(parent, kind_of(bud), stamp)?;
    }
    Ok(tree)
}

fn moment_of<'a>(alloc: Global, plan: &Plan<'a>) -> Result<Moment<'a>, Fail> {
    let tree = tree_of(alloc, plan.nodes)?;
    Ok(Moment {
        tree,
        calls: plan.calls,
        columns: plan.columns,
        accesses: plan.accesses,
        askers: plan.askers,
    })
}

/// A block with a stolen fork, and a block in each of its strands.
const STOLEN_IN_A_BLOCK: Plan<'static> = Plan {
    nodes: &[
        (0, Bud::Block, 1),
        (1, Bud::Write { cell: 0, value: 1 }, 2),
        (1, Bud::Fork, 3),
        (3, Bud::Strand, 0),
        (3, Bud::Strand, 0),
        (4, Bud::Block, 4),
        (6, Bud::Write { cell: 0, value: 2 }, 5),
        (5, Bud::Read { cell: 1, value: 0 }, 6),
        (5, Bud::Block, 7),
        (9, Bud::Write { cell: 1, value: 3 }, 8),
        (6, Bud::Tried { cell: 1 }, 0),
        (9, Bud::Tried { cell: 0 }, 0),
    ],
    calls: &[
        Call::Word(0, 1),
        Call::Fork(0),
        Call::Split(1),
        Call::Word(1, 4),
        Call::Word(2, 7),
    ],
    columns: &[0, 0, 0, 0, 1, 2, 1, 1, 2, 2, 2, 1, 2],
    accesses: &[2, 7, 8, 10],
    askers: &[11, 12],
};

/// The same tree without the block around the fork.
const STOLEN_IN_NO_BLOCK: Plan<'static> = Plan {
    nodes: &[
        (0, Bud::Fork, 1),
        (1, Bud::Strand, 0),
        (1, Bud::Strand, 0),
        (2, Bud::Block, 2),
        (4, Bud::Write { cell: 0, value: 1 }, 3),
        (3, Bud::Read { cell: 1, value: 0 }, 4),
        (3, Bud::Block, 5),
        (7, Bud::Write { cell: 1, value: 2 }, 6),
        (4, Bud::Tried { cell: 1 }, 0),
        (7, Bud::Tried { cell: 0 }, 0),
    ],
    calls: &[
        Call::Fork(0),
        Call::Split(1),
        Call::Word(0, 2),
        Call::Word(2, 5),
    ],
    columns: &[0, 0, 1, 2, 1, 1, 2, 2, 2, 1, 2],
    accesses: &[5, 6, 8],
    askers: &[9, 10],
};

/// A stolen branch that was merged again, and then a block with a stolen fork.
const MERGED_BEFORE_A_BLOCK: Plan<'static> = Plan {
    nodes: &[
        (0, Bud::Fork, 1),
        (1, Bud::Strand, 0),
        (1, Bud::Strand, 0),
        (2, Bud::Write { cell: 0, value: 1 }, 2),
        (3, Bud::Write { cell: 1, value: 2 }, 3),
        (0, Bud::Block, 4),
        (6, Bud::Fork, 5),
        (7, Bud::Strand, 0),
        (7, Bud::Strand, 0),
        (8, Bud::Write { cell: 2, value: 3 }, 6),
        (8, Bud::Tried { cell: 0 }, 0),
        (9, Bud::Tried { cell: 2 }, 0),
    ],
    calls: &[
        Call::Fork(0),
        Call::Split(1),
        Call::Merge(1),
        Call::Word(0, 4),
        Call::Fork(0),
        Call::Split(3),
    ],
    columns: &[0, 0, 1, 2, 1, 2, 0, 0, 3, 4, 3, 3, 4],
    accesses: &[4, 5, 10],
    askers: &[11, 12],
};

/// Writes the verdicts at the moment that a plan makes.
fn verdicts_at(alloc: Global, plan: &Plan<'_>) -> Result<String, Fail> {
    let moment = moment_of(alloc, plan)?;
    let blanks = (Blank::new(1), Blank::new(1));
    let text = verdicts::<Brand, Brand>(alloc, blanks, &moment);
    drop(moment);
    text
}

#[test]
fn verdicts_and_victims_are_those_of_the_tree(rt: HostRuntime) -> Result<(), Fail> {
    let table: &[(Plan<'_>, &str)] = &[
        (
            STOLEN_IN_A_BLOCK,
            "Within Within Within Against(4) Within Within Against(7) Within ",
        ),
        (
            STOLEN_IN_NO_BLOCK,
            "Within Against(2) Free Free Against(5) Within ",
        ),
        (MERGED_BEFORE_A_BLOCK, "Free Free Free Free Within Within "),
    ];
    for (plan, wanted) in table {
        let text = verdicts_at(rt.alloc(), plan)?;
        assert!(rt; text.as_str() == *wanted);
    }
    Ok(())
}
