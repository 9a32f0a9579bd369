//! Courses: what strands did, as their logs tell it, and when logs are a coherent record. No code here runs.
//! Use it to show that a runtime of yours leaves coherent records. `proofs/Trails` has the lemmas on how a log grows while its
//! strand runs, over the definitions of `specs/Trails.antt`.
//! Contracts cite `specs/Courses.antt` (what one strand did, and how that is written down), `specs/Closings.antt` (the tree of
//! logs, what threads owe, what a board owes, and the laws) and `specs/TreeLogs.antt` (when logs make a given tree).
//! `specs/Worked.antt` and `specs/WorkedTreeLogs.antt` try them on examples.
#![tactic(auto)]

mod one_tree;

ghost use Rattle.cw_course.specs.Closings.{CoursesFollow, WorkedAreCoherent};
ghost use Rattle.cw_course.specs.Courses.{CoursesGoOn};
ghost use Rattle.cw_course.specs.Worked.{WorkedCourses};

pub use one_tree::{logs_hang_earlier, logs_make_one_tree, worked_tree_logs};

/// Examples: what the strands of small programs did is a course, and is none once one thing is changed.
pub fn worked_courses()
    ensures { WorkedCourses }
{}

/// A strand that goes by a course goes as the law of strands says, and ends with as many blocks begun as before.
pub fn courses_go_on<S>()
    ensures { CoursesGoOn S }
{}

/// The tree of the logs of a course that stops has states of its strands, which follow one another as in a coherent record. If the
/// course goes to its end, each live strand has ended. The strand of a fault stands at that fault.
pub fn courses_follow<S>()
    ensures { CoursesFollow S }
{}

/// Logs in which strands wrote what they did, with what a board gives when it is closed with them, are a coherent record.
pub fn worked_are_coherent<S>()
    ensures { WorkedAreCoherent S }
{}
