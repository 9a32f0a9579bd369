ghost use Rattle.cw_course.specs.TreeLogs.{ClosingsGiveOneTree, EarlierAreTogether, EarlierFollows, LogsMakeOneTree};
ghost use Rattle.cw_course.specs.WorkedTreeLogs.{WorkedTreeLogs};

/// Logs that have all nodes of a tree, each node once, and that hang where the tree has them make that tree together, except for the
/// numbers of its nodes. The same is true of the conflicts. A board that is closed with such logs gives the tree in depth-first
/// order, its conflicts, and the halt of the strand that stopped.
pub fn logs_make_one_tree()
    ensures tree { LogsMakeOneTree }
    ensures closed { ClosingsGiveOneTree }
{}

/// Law: logs whose tree is numbered each hang from an earlier one, if each begins with a right strand and hangs from some log. And if
/// each hangs from an earlier one, each hangs from some log.
pub fn logs_hang_earlier()
    ensures earlier { EarlierFollows }
    ensures together { EarlierAreTogether }
{}

/// Examples: the logs of a small tree, which are not its logs once one thing is changed.
pub fn worked_tree_logs()
    ensures { WorkedTreeLogs }
{}
