use super::ran;
use std::test::Fail;

// One row for each way to look for races that would be wrong.
#[test]
fn the_first_race_of_each_cell_is_told(rt: HostRuntime) -> Result<(), Fail> {
    let table: [(&[u8], &[u8]); 6] = [
        // a reader that is always replaced
        (
            b"cell c; fn main() { spawn { out c; } out c; c = 1; }",
            b"race c first 0.1l@2 second 0.1r@6\nraces 1\nend\n",
        ),
        // a reader that is never replaced
        (
            b"cell c; fn main() { out c; spawn { out c; } c = 1; }",
            b"race c first 0.1l@4 second 0.1r@6\nraces 1\nend\n",
        ),
        // accesses that are compared across blocks
        (
            b"cell c; cell d; fn main() { atomic { spawn { d = 1; atomic { c = 1; } } atomic { c = 2; } d = 2; } }",
            b"race d first 0.1l@3 second 0.1r@10\nraces 1\nend\n",
        ),
        // a read that is not asked about the last writer
        (
            b"cell c; fn main() { spawn { c = -7; } out c; }",
            b"race c first 0.1l@2 second 0.1r@3\nraces 1\nend\n",
        ),
        // the last race of a cell
        (
            b"cell b; cell c; fn main() { spawn { c = 1; b = 1; } b = 2; c = 2; c = 3; }",
            b"race b first 0.1l@3 second 0.1r@4\nrace c first 0.1l@2 second 0.1r@5\nraces 2\nend\n",
        ),
        // accesses outside blocks that are left out
        (
            b"cell a[2]; fn main() { spawn { a[1] = 1; } a[0] = 2; a[1] = 3; }",
            b"race a[1] first 0.1l@2 second 0.1r@4\nraces 1\nend\n",
        ),
    ];
    for (source, wanted) in table {
        let (status, told) = ran(&rt, &["races"], source)?;
        assert!(rt; status == 0);
        assert!(rt; told.as_slice() == wanted);
    }
    Ok(())
}
