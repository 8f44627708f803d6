//! The queue on examples, with elements of 16 bits; and where the youngest write to a sector stands.
use Step::{Pop, Push};
use device::{BLANK, PAYLOAD, PendingWrite, Queue, youngest_to};

// A call and what it has to answer.
#[derive(Clone, Copy)]
enum Step {
    Push(u16, Result<(), u16>),
    Pop(Option<u16>),
}

// For a queue of three places: each call, and those that wait after it, oldest first.
const STEPS: [(Step, &[u16]); 17] = [
    (Pop(None), &[]),
    (Push(1, Ok(())), &[1]),
    (Push(2, Ok(())), &[1, 2]),
    (Pop(Some(1)), &[2]),
    (Push(3, Ok(())), &[2, 3]),
    (Push(65_535, Ok(())), &[2, 3, 65_535]),
    (Push(5, Err(5)), &[2, 3, 65_535]),
    (Pop(Some(2)), &[3, 65_535]),
    (Push(6, Ok(())), &[3, 65_535, 6]),
    (Push(7, Err(7)), &[3, 65_535, 6]),
    (Pop(Some(3)), &[65_535, 6]),
    (Pop(Some(65_535)), &[6]),
    (Push(6, Ok(())), &[6, 6]),
    (Pop(Some(6)), &[6]),
    (Pop(Some(6)), &[]),
    (Pop(None), &[]),
    (Push(8, Ok(())), &[8]),
];

impl Step {
    // Whether the queue answers the call so.
    fn is_met(self, queue: &mut Queue<u16>) -> bool {
        match self {
            Push(x, wanted) => queue.push(x) == wanted,
            Pop(wanted) => queue.pop() == wanted,
        }
    }
}

// Whether these wait and no others, by every call that tells of them.
fn wait(queue: &Queue<u16>, wanted: &[u16]) -> bool {
    let (older, younger) = queue.as_slices();
    queue.len() == wanted.len()
        && queue.is_empty() == wanted.is_empty()
        && (0..4).all(|k| queue.get(k) == wanted.get(k).copied())
        && older.iter().chain(younger).eq(wanted)
}

#[test]
fn queues_give_what_came_first(rt: HostRuntime) {
    let mut slots = [9; 3];
    let mut queue = Queue::new(&mut slots);
    assert!(rt; wait(&queue, &[]));
    for (step, wanted) in STEPS {
        assert!(rt; step.is_met(&mut queue));
        assert!(rt; wait(&queue, wanted));
        assert_eq!(rt; queue.places(), 3);
    }
    queue.clear();
    assert!(rt; wait(&queue, &[]));
}

#[test]
fn queues_give_their_places_back(rt: HostRuntime) {
    let mut slots = [9; 4];
    let mut queue = Queue::new(&mut slots);
    assert_eq!(rt; queue.push(1), Ok(()));
    assert_eq!(rt; queue.into_slots().len(), 4);
    slots.sort_unstable();
    assert_eq!(rt;
        slots,
        [1, 9, 9, 9],
        "the places that were not taken are left"
    );
    let mut none = Queue::new(&mut []);
    assert_eq!(rt; none.push(1), Err(1));
    assert_eq!(rt; none.pop(), None);
    assert!(rt; wait(&none, &[]));
}

// A write to the sector.
fn to(sector: u32) -> PendingWrite {
    PendingWrite {
        sector,
        bytes: [1; PAYLOAD],
    }
}

#[test]
fn the_youngest_write_is_found(rt: HostRuntime) {
    let writes = [to(3), to(4), to(3), to(5), BLANK];
    for (sector, wanted) in [
        (3, Some(2)),
        (4, Some(1)),
        (5, Some(3)),
        (0, Some(4)),
        (6, None),
    ] {
        assert_eq!(rt; youngest_to(&writes, sector), wanted);
    }
    assert_eq!(rt; youngest_to(&[], 3), None);
    assert_eq!(rt; BLANK, PendingWrite::default());
}
