use std::marker::Brand;

/// Names a run: its job, and the table of its pairs. Each run picks it.
pub trait RunName: cw_pair::TableName {
    ghost use Rattle.cw_job.specs.Jobs.{Job};

    ghost job: { Job };
}

impl RunName for Brand {
    ghost use Rattle.cw_pool.specs.Starts.{no_job};

    ghost job = { no_job };
}
