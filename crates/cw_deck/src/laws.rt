//! A law on histories of deques.
ghost use Rattle.cw_deck.specs.Deeds.{NoTaskIsLost};

/// Counted with repeats, the tasks that were pushed are those popped, those stolen and those left.
pub fn no_task_is_lost<T>()
    ensures { NoTaskIsLost T }
{}
