use host_fakes::MemorySource;
use inbox::{Entry, HostEnd, ReadOut, ReaderEnd, Refusal, WorkerEnd, open_inbox};
use plain::{Bytes, Items};
use std::alloc::Global;
use std::sync::Wait;
use std::test::Fail;
use std::thread::{self, JoinHandle, Threads};

const WORKERS: u64 = 8;

const EACH: u64 = 125_000;

// An inbox, and the next entry: calls that claim nothing.
fn open<R: Wait>(
    rt: &R,
    alloc: Global,
    source: &MemorySource,
) -> Result<(HostEnd, ReaderEnd), Fail> {
    Ok(open_inbox(rt, alloc, source)?)
}

fn take<R: Wait>(rt: &R, host: &mut HostEnd) -> Option<Entry> {
    host.take(rt)
}

fn wait<R: Wait>(rt: &R, host: &mut HostEnd) -> Entry {
    host.wait(rt)
}

fn worker(host: &mut HostEnd) -> Result<WorkerEnd, Fail> {
    Ok(host.worker()?)
}

fn report<R: Wait>(rt: &R, end: &mut WorkerEnd, number: u64) {
    end.report_surely(rt, number);
}

fn source(alloc: Global, bytes: &[u8]) -> Result<MemorySource, Fail> {
    Ok(MemorySource::new(alloc, Bytes::from_slice(alloc, bytes)?, Items::new(alloc)))
}

// Reports each number of a worker.
fn report_all<R: Wait>(rt: R, mut end: WorkerEnd, worker: u64) -> bool
where
    R: Drop,
{
    for number in 0..EACH {
        report(&rt, &mut end, worker % WORKERS * EACH + number);
    }
    true
}

fn start<R: Threads + Wait + Copy + Drop + Send + 'static>(
    rt: R,
    alloc: Global,
    host: &mut HostEnd,
) -> Result<Vec<JoinHandle<bool>>, Fail> {
    let mut workers = Vec::new(alloc);
    for number in 0..WORKERS {
        let end = worker(host)?;
        workers.push(thread::spawn(&rt, move || report_all(rt, end, number))?)?;
    }
    Ok(workers)
}

// Notes a number that was taken, and says whether it is the first time.
fn note(seen: &mut Vec<bool>, number: u64) -> bool {
    match seen.get_mut(number as usize) {
        Some(place) => {
            let is_new = !*place;
            *place = true;
            is_new
        }
        None => false,
    }
}

#[test]
fn a_million_entries_of_eight_threads_are_taken_once_each(rt: HostRuntime) -> Result<(), Fail> {
    let alloc = rt.alloc();
    let source = source(alloc, b"")?;
    let (mut host, _reader) = open(&rt, alloc, &source)?;
    let workers = start(rt, alloc, &mut host)?;
    let mut seen = vec![in alloc; false; 1_000_000]?;
    let mut left = WORKERS * EACH;
    let mut is_each_once = true;
    for _ in 0..10_000_000_000u64 {
        if left == 0 {
            break;
        }
        if let Entry::Done(number) = wait(&rt, &mut host) {
            is_each_once = is_each_once && note(&mut seen, number);
            left -= 1;
        }
    }
    for worker in workers {
        assert!(rt; worker.join(&rt));
    }
    assert_eq!(rt; left, 0);
    assert!(rt; is_each_once);
    assert!(rt; seen.iter().all(|is_seen| *is_seen));
    Ok(())
}

#[test]
fn the_first_entry_tells_the_source(rt: HostRuntime) -> Result<(), Fail> {
    let alloc = rt.alloc();
    let source = source(alloc, b"ab")?;
    let (mut host, _reader) = open(&rt, alloc, &source)?;
    assert!(rt; matches!(take(&rt, &mut host), Some(Entry::Opened(_))));
    assert!(rt; take(&rt, &mut host).is_none());
    Ok(())
}

// The bytes and the last entry that a reader posts of a source, and how many bytes it says that it posted.
fn read<R: Wait>(
    rt: &R,
    alloc: Global,
    source: MemorySource,
) -> Result<(Vec<u8>, Option<Entry>, u64), Fail> {
    let (mut host, reader) = open_inbox(rt, alloc, &source)?;
    let refusal = Refusal::new(alloc)?;
    let ReadOut { end, posted, .. } = reader.read_all(rt, alloc, source, &refusal);
    drop(end);
    let mut bytes = Vec::new(alloc);
    let mut last = None;
    for _ in 0..100 {
        match take(rt, &mut host) {
            Some(Entry::Piece(piece)) => bytes.extend_from_slice(piece.as_slice())?,
            Some(entry) => last = Some(entry),
            None => break,
        }
    }
    Ok((bytes, last, posted))
}

#[test]
fn a_reader_posts_all_bytes_and_then_the_end(rt: HostRuntime) -> Result<(), Fail> {
    let alloc = rt.alloc();
    for length in [0, 1, 65_536, 65_537, 200_000] {
        let text = Bytes::from_vec(vec![in alloc; b'x'; length]?);
        let (bytes, last, posted) = read(
            &rt,
            alloc,
            MemorySource::new(alloc, text, Items::new(alloc)),
        )?;
        assert_eq!(rt; bytes.len(), length);
        assert_eq!(rt; posted, length as u64);
        assert!(rt; matches!(last, Some(Entry::Ended)), "{length}");
    }
    Ok(())
}

#[test]
fn a_reader_posts_a_failure_last(rt: HostRuntime) -> Result<(), Fail> {
    let alloc = rt.alloc();
    let mut fails = Items::new(alloc);
    fails.push(2)?;
    let source = MemorySource::new(alloc, Bytes::from_vec(vec![in alloc; 7; 70_000]?), fails);
    let (bytes, last, posted) = read(&rt, alloc, source)?;
    assert_eq!(rt; bytes.len(), 65_536);
    assert_eq!(rt; posted, 65_536);
    assert!(rt; matches!(last, Some(Entry::Failed(_))));
    Ok(())
}
