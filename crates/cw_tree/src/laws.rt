ghost use Rattle.cw_tree.specs.ChainLaws.{ConflictsAt, ConflictsGrow, ConflictsClose, NewestGrow, NewestClose, ChainsGrow, ChainsClose, ChainsExtend, PartsAreChains, EachFollows, SomeAreChains, BeneathIsEnd, StampsGrow, StampsClose, StampsExtend, PartsOfStamps, EachStampFollows, SomeOfStamps, StampsBeneath, StampConflictsGrow, StampConflictsClose, StacksGrow, StacksClose, FrontsOfStacks, StacksTell};
ghost use Rattle.cw_tree.specs.NextNodes.{SoundCloses, SoundForks, SoundGrows, SoundRefuses};
ghost use Rattle.cw_tree.specs.OneTree.{OneList, OneNumber, OneTree, OneTreeRows};
ghost use Rattle.cw_tree.specs.OrderLaws.{AncestorsStay, NodesStay, NumberedDepthFirst, NumbersDiffer, SeriesStay, SiblingsStay, SoundStays, TreesStay};
ghost use Rattle.cw_tree.specs.VictimsAt.{VictimsAt, VictimsGrow, VictimRows};

/// What an access that is made next at a place conflicts with, and what stays of that as others act.
pub fn conflicts_at_places()
    ensures place { ConflictsAt }
    ensures grow { ConflictsGrow }
    ensures close { ConflictsClose }
    ensures newest_grow { NewestGrow }
    ensures newest_close { NewestClose }
{}

/// The victim of an access that is made next at a place, what stays of it as others act, and what it is in small trees.
pub fn victims_at_places()
    ensures place { VictimsAt }
    ensures grow { VictimsGrow }
    ensures rows { VictimRows }
{}

/// A chain stays a chain as nodes are added and blocks are closed, and when an access follows that does not conflict
/// with the newest. Its parts are chains. The accesses beneath a pending block are its end.
pub fn chains_stay()
    ensures grow { ChainsGrow }
    ensures close { ChainsClose }
    ensures extend { ChainsExtend }
    ensures parts { PartsAreChains }
    ensures each { EachFollows }
    ensures some { SomeAreChains }
    ensures beneath { BeneathIsEnd }
{}

/// The same for accesses that are named by their stamps.
pub fn chains_by_stamps()
    ensures grow { StampsGrow }
    ensures close { StampsClose }
    ensures extend { StampsExtend }
    ensures parts { PartsOfStamps }
    ensures each { EachStampFollows }
    ensures some { SomeOfStamps }
    ensures beneath { StampsBeneath }
    ensures conflicts_grow { StampConflictsGrow }
    ensures conflicts_close { StampConflictsClose }
{}

/// Accesses of a cell keep their entries as nodes are added and blocks are closed, and so do the oldest of them. An
/// entry tells what its access wrote, and when.
pub fn stacks_stay()
    ensures grow { StacksGrow }
    ensures close { StacksClose }
    ensures fronts { FrontsOfStacks }
    ensures tell { StacksTell }
{}

/// What is true of the tree of a run stays true as nodes are made at places and blocks there are closed.
pub fn trees_stay_sound()
    ensures grows { SoundGrows }
    ensures refuses { SoundRefuses }
    ensures forks { SoundForks }
    ensures closes { SoundCloses }
{}

/// A tree in depth-first order is the same tree with its nodes renamed.
pub fn orders_rename()
    ensures trees { TreesStay }
    ensures nodes { NodesStay }
    ensures numbers { NumbersDiffer }
    ensures ancestors { AncestorsStay }
    ensures siblings { SiblingsStay }
    ensures numbered { NumberedDepthFirst }
    ensures series { SeriesStay }
    ensures sound { SoundStays }
{}

/// Two trees that differ only in the numbers of their nodes are one tree in depth-first order, with one list of
/// conflicts. The rows say so of a small one.
pub fn trees_are_one()
    ensures tree { OneTree }
    ensures number { OneNumber }
    ensures conflicts { OneList }
    ensures rows { OneTreeRows }
{}
