//! Places of arrays.
ghost use Rattle.std.specs.Prelude.{◌≡◌};
ghost use Rattle.container_calls.specs.Indexing as indexing;
ghost use Rattle.container_calls.specs.Lists as lists;

/// The place of an index among so many items, a negative one being counted from the end; or the index that is out of range, as it was
/// counted.
pub fn place_at(count: usize, at: i32) -> Result<usize, i32>
    ensures { indexing.Places (indexing.counted count at) (lists.place_of count (indexing.counted count at)) result }
{
    if at >= 0 {
        let place = at as usize;
        return if place < count { Ok(place) } else { Err(at) };
    }
    let back = (-(at + 1)) as usize;
    if back < count {
        Ok(count - 1 - back)
    } else {
        Err(at + count as i32)
    }
}

/// A count as an int, at most the greatest one.
pub fn count_as_int(count: usize) -> i32
    ensures { result ≡ lists.count_as_int count }
{
    if count <= 2_147_483_647 {
        count as i32
    } else {
        2_147_483_647
    }
}
