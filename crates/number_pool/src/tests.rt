//! Each call once with ample memory: the least free place after places were taken and given back, and in
//! a full pool.
use super::NumberPool;
use std::alloc::Global;
use std::test::Fail;

const PLACES: u32 = 65_536;

fn empty_pool(alloc: Global) -> Result<NumberPool<16>, Fail> {
    Ok(NumberPool::new(alloc).ok().ok_or("no memory")?)
}

#[test]
fn an_empty_pool_has_place_0_free(rt: HostRuntime) -> Result<(), Fail> {
    let pool = empty_pool(rt.alloc())?;
    assert_eq!(rt; pool.least_free(), Some(0));
    assert!(rt; !pool.is_taken(0));
    Ok(())
}

#[test]
fn a_place_given_back_is_the_least_free_one(rt: HostRuntime) -> Result<(), Fail> {
    let mut pool = empty_pool(rt.alloc())?;
    for place in 0..3 {
        pool.take(place);
    }
    assert_eq!(rt; pool.least_free(), Some(3));
    pool.give_back(1);
    assert_eq!(rt; pool.least_free(), Some(1));
    for (place, taken) in [
        (0, true),
        (1, false),
        (2, true),
        (3, false),
        (65_535, false),
        (65_536, false),
    ] {
        assert_eq!(rt; pool.is_taken(place), taken, "place {place}");
    }
    Ok(())
}

#[test]
fn the_least_free_place_from_one_on(rt: HostRuntime) -> Result<(), Fail> {
    let mut pool = empty_pool(rt.alloc())?;
    for place in [0, 1, 2, 4, 7, 8, 65_535] {
        pool.take(place);
    }
    for (from, least) in [
        (0, Some(3)),
        (3, Some(3)),
        (4, Some(5)),
        (7, Some(9)),
        (65_534, Some(65_534)),
        (65_535, None),
        (65_536, None),
        (u32::MAX, None),
    ] {
        assert_eq!(rt; pool.least_free_from(from), least, "from {from}");
    }
    Ok(())
}

#[test]
fn a_full_pool_has_no_free_place(rt: HostRuntime) -> Result<(), Fail> {
    let mut pool = empty_pool(rt.alloc())?;
    for place in 0..PLACES {
        pool.take(place);
    }
    assert_eq!(rt; pool.least_free(), None);
    pool.give_back(40_000);
    assert_eq!(rt; pool.least_free(), Some(40_000));
    pool.take(40_000);
    pool.give_back(65_535);
    assert_eq!(rt; pool.least_free(), Some(65_535));
    assert!(rt; pool.is_taken(40_000));
    Ok(())
}

#[test]
fn a_small_pool_has_as_many_places_as_asked(rt: HostRuntime) -> Result<(), Fail> {
    let mut pool: NumberPool<10> = NumberPool::new(rt.alloc()).ok().ok_or("no memory")?;
    for place in 0..1024 {
        assert_eq!(rt; pool.least_free(), Some(place));
        pool.take(place);
    }
    assert_eq!(rt; pool.least_free(), None);
    assert_eq!(rt; pool.least_free_from(0), None);
    assert!(rt; !pool.is_taken(1024));
    pool.give_back(1023);
    assert_eq!(rt; pool.least_free_from(7), Some(1023));
    assert_eq!(rt; pool.least_free_from(1024), None);
    Ok(())
}

#[test]
fn a_pool_of_one_place(rt: HostRuntime) -> Result<(), Fail> {
    let mut pool: NumberPool<0> = NumberPool::new(rt.alloc()).ok().ok_or("no memory")?;
    assert_eq!(rt; pool.least_free(), Some(0));
    pool.take(0);
    assert_eq!(rt; pool.least_free(), None);
    assert_eq!(rt; pool.least_free_from(0), None);
    assert!(rt; pool.is_taken(0));
    pool.give_back(0);
    assert_eq!(rt; pool.least_free_from(0), Some(0));
    Ok(())
}
