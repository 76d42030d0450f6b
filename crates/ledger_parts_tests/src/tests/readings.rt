use ledger_model::{Direction, Moment, Reading};
use reading_index::{MomentKey, ReadingIndex};
use std::test::Fail;

// A reading of an event: so many minutes after 2026-03-01T10:00:00Z, below an hour, and its number.
#[derive(Clone, Copy)]
struct Sample {
    minute: u8,
    number: u8,
}

const fn sample_at(minute: u8, number: u8) -> Sample {
    Sample { minute, number }
}

impl Sample {
    fn moment(self) -> Option<Moment> {
        Moment::new(1_772_359_200_000_000_000 + u64::from(self.minute % 60) * 60_000_000_000)
    }

    // Its key in the transaction of slot 3.
    fn key(self) -> Option<MomentKey> {
        let moment = self.moment()?;
        Some(MomentKey::new(3, Direction::Import, moment, u32::from(self.number), 0))
    }

    // The reading; its level is the number of its event.
    fn reading(self) -> Option<Reading> {
        Reading::new(self.moment()?, u64::from(self.number), Direction::Import)
    }
}

// Puts a reading in if there is none and there is room; returns whether it did.
fn put(index: &mut ReadingIndex, sample: Sample) -> bool {
    let (Some(key), Some(reading)) = (sample.key(), sample.reading()) else {
        return false;
    };
    if index.holds(key) || index.len() >= index.capacity() {
        return false;
    }
    index.put(key, reading);
    true
}

// Whether this is that reading, under its key.
fn is_sample(found: Option<(MomentKey, Reading)>, wanted: Option<Sample>) -> bool {
    match (found, wanted) {
        (Some((key, reading)), Some(sample)) => {
            sample.key() == Some(key) && sample.reading() == Some(reading)
        }
        (None, None) => true,
        _ => false,
    }
}

// Whether these readings are on either side of a key.
fn stand_around(
    index: &ReadingIndex,
    sample: Sample,
    before: Option<Sample>,
    behind: Option<Sample>,
) -> bool {
    match sample.key() {
        Some(key) => {
            let found = index.around(key);
            is_sample(found.0, before) && is_sample(found.1, behind)
        }
        None => false,
    }
}

// Takes a reading out.
fn take(index: &mut ReadingIndex, sample: Sample) {
    if let Some(key) = sample.key() {
        index.take(key);
    }
}

// The number of the event of a key.
fn number(sample: Sample) -> Option<u32> {
    Some(sample.key()?.number())
}

#[test]
fn readings_go_by_moment_then_number(rt: HostRuntime) -> Result<(), Fail> {
    let mut index = ReadingIndex::open(rt.alloc(), 4)?;
    assert!(rt; put(&mut index, sample_at(0, 0)) && put(&mut index, sample_at(10, 2)));
    assert!(rt; put(&mut index, sample_at(10, 1)) && put(&mut index, sample_at(5, 3)));
    assert!(rt; !put(&mut index, sample_at(5, 3)) && !put(&mut index, sample_at(6, 4)));
    assert!(rt;
        stand_around(
            &index,
            sample_at(10, 1),
            Some(sample_at(5, 3)),
            Some(sample_at(10, 1))
        )
    );
    assert!(rt;
        stand_around(
            &index,
            sample_at(10, 2),
            Some(sample_at(10, 1)),
            Some(sample_at(10, 2))
        )
    );
    assert!(rt; stand_around(&index, sample_at(11, 0), Some(sample_at(10, 2)), None));
    take(&mut index, sample_at(10, 1));
    take(&mut index, sample_at(20, 1));
    assert!(rt;
        stand_around(
            &index,
            sample_at(10, 1),
            Some(sample_at(5, 3)),
            Some(sample_at(10, 2))
        )
    );
    assert!(rt; index.len() == 3 && number(sample_at(10, 2)) == Some(2));
    Ok(())
}

// Whether nothing of another transaction, or of the other direction, is around a key.
fn is_alone(index: &ReadingIndex, slot: u32, direction: Direction) -> bool {
    let Some(moment) = sample_at(5, 0).moment() else {
        return false;
    };
    let key = MomentKey::new(slot & 0xff_ffff, direction, moment, 1, 0);
    let found = index.around(key);
    found.0.is_none() && found.1.is_none()
}

#[test]
fn readings_of_another_owner_are_none(rt: HostRuntime) -> Result<(), Fail> {
    let mut index = ReadingIndex::open(rt.alloc(), 2)?;
    assert!(rt; put(&mut index, sample_at(0, 0)) && put(&mut index, sample_at(10, 1)));
    assert!(rt; is_alone(&index, 2, Direction::Import) && is_alone(&index, 4, Direction::Import));
    assert!(rt; is_alone(&index, 3, Direction::Export));
    assert!(rt; !is_alone(&index, 3, Direction::Import));
    Ok(())
}
