use analysis_host::Cancel;
use atomic_revision::{AtomicRevision, RevisionCancel, Writer};
use std::alloc::Global;
use std::test::Fail;
use std::thread::{self, JoinHandle, Threads};

// What a worker sees of a word while it is raised: the last number, and whether no number was below one before.
fn watch(mut cancel: RevisionCancel) -> (u64, bool) {
    let mut last = 0;
    let mut is_rising = true;
    for _ in 0..200_000 {
        if let Some(number) = cancel.poll() {
            is_rising = is_rising && last <= number;
            last = number;
        }
    }
    (last, is_rising)
}

#[test]
fn polls_answer_numbers_above_the_floor(rt: HostRuntime) -> Result<(), Fail> {
    let mut writer = Writer::new(rt.alloc())?;
    let mut cancel = writer.cancel(4)?;
    for (number, polled) in [
        (0, None),
        (4, None),
        (5, Some(5)),
        (3, Some(5)),
        (9, Some(9)),
    ] {
        writer.raise(number);
        assert_eq!(rt; cancel.poll(), polled, "after {number}");
    }
    assert_eq!(rt; cancel.held(), Some(9));
    assert_eq!(rt; writer.number, 9);
    Ok(())
}

#[test]
fn seats_are_joined(rt: HostRuntime) -> Result<(), Fail> {
    let (word, mut writer) = AtomicRevision::new(rt.alloc())?;
    let mut seat = word.split(&mut writer);
    word.raise(&mut writer, 7);
    assert_eq!(rt; word.look(&mut seat), 7);
    word.join(&mut writer, seat);
    Ok(())
}

fn workers<R: Threads>(
    rt: &R,
    alloc: Global,
    writer: &mut Writer,
) -> Result<Vec<JoinHandle<(u64, bool)>>, Fail> {
    let mut workers = Vec::new(alloc);
    for _ in 0..8 {
        let cancel = writer.cancel(0)?;
        workers.push(thread::spawn(rt, move || watch(cancel))?)?;
    }
    Ok(workers)
}

#[test]
fn eight_threads_see_a_rising_word(rt: HostRuntime) -> Result<(), Fail> {
    let alloc = rt.alloc();
    let mut writer = Writer::new(alloc)?;
    let workers = workers(&rt, alloc, &mut writer)?;
    for number in 1..100_001 {
        writer.raise(number);
    }
    for worker in workers {
        let (last, is_rising) = worker.join(&rt);
        assert!(rt; is_rising && last <= 100_000);
    }
    assert_eq!(rt; writer.number, 100_000);
    Ok(())
}
