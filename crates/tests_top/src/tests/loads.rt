use super::outside::Counter;
use super::{ask, status_at};
use cw_io::{Source, SureSink, SureSource};
use std::sync::Wait;
use std::sync::atomic::{AtomicU64, Ordering};
use std::test::Fail;
use std::thread::Threads;

// What tests look at in a load.
#[derive(Drop)]
struct Loaded {
    status: u8,
    text: Vec<u8>,
    is_source_whole: bool,
}

fn load_of<R: AllocGlobal + Threads + Wait + Sync>(rt: &R, words: &[&str]) -> Result<Loaded, Fail> {
    let mut source = SureSource::new(b"x".to_vec(rt.alloc())?, 1);
    let mut sink = SureSink::with_room(rt.alloc(), 100)?;
    let said = ask(rt, words, &mut source, &mut sink)?;
    Ok(Loaded {
        status: said.status,
        text: sink.taken().to_vec(rt.alloc())?,
        is_source_whole: source.read(&mut [0u8; 1]) == Ok(1),
    })
}

// Transfers keep the sum. A load has one number.
#[test]
fn loads_write_their_sum(rt: HostRuntime) -> Result<(), Fail> {
    let table: [(&[&str], u8, &[u8]); 9] = [
        (&["load", "1"], 0, b"transfers 1\nsum 64000\nend\n"),
        (&["load", "17"], 0, b"transfers 17\nsum 64000\nend\n"),
        (&["load", "10000"], 0, b"transfers 10000\nsum 64000\nend\n"),
        (
            &["load", "--workers=1", "--", "05"],
            0,
            b"transfers 5\nsum 64000\nend\n",
        ),
        (&["load"], 2, b""),
        (&["load", "0"], 2, b""),
        (&["load", "20001"], 2, b""),
        (&["load", "5", "6"], 2, b""),
        (&["load", "--fuel", "1", "5"], 2, b""),
    ];
    for (words, status, text) in table {
        let load = load_of(&rt, words)?;
        assert_eq!(rt; load.status, status);
        assert_eq!(rt; load.text.as_slice(), text);
        assert!(rt; load.is_source_whole);
    }
    Ok(())
}

// The threads of a load call the gate, and a single worker does not.
#[test]
fn several_workers_of_a_load_come_to_the_gate(rt: HostRuntime) -> Result<(), Fail> {
    for (workers, is_met) in [("--workers=1", false), ("--workers=2", true)] {
        let gate = Counter {
            calls: AtomicU64::new(0),
        };
        let status = status_at(&rt, &["load", workers, "17"], b"x", &gate)?;
        assert_eq!(rt; status, 0, "{workers}");
        assert_eq!(rt; gate.calls.load(Ordering::SeqCst) != 0, is_met, "{workers}");
    }
    Ok(())
}
