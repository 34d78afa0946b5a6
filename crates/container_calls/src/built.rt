//! Which members of containers are built.
ghost use Rattle.std.specs.Prelude.{◌≡◌};
ghost use Rattle.container_calls.specs.Members as spec;
ghost use Rattle.container_calls.specs.Members.{is_of_containers};

fn is_within(number: u32, from: u32, to: u32) -> bool
    ensures { result ≡ spec.within from to number }
{
    from <= number && number < to
}

/// The numbers of the members that are built: from the first of each pair to before the second.
static CONTAINER_RANGES: [(u32, u32); 9] = [
    (86, 87),
    (89, 90),
    (96, 108),
    (113, 120),
    (121, 122),
    (123, 145),
    (159, 176),
    (177, 178),
    (225, 226),
];

#[tactic(auto, unfolding(crate::specs::Members::container_ranges))]
fn container_ranges() -> &'static [(u32, u32)]
    ensures { result.now ≡ spec.container_ranges }
{
    &CONTAINER_RANGES
}

fn is_in(ranges: &[(u32, u32)], number: u32) -> bool
    ensures { result ≡ spec.in_ranges ranges.now number }
{
    for at in 0..ranges.len() {
        let (from, to) = ranges[at];
        if is_within(number, from, to) {
            return true;
        }
    }
    false
}

/// Whether the member of this number in the catalogue is one of containers that is built: all of them are but those of the prelude.
pub fn is_of_containers(number: u32) -> bool
    ensures { result ≡ is_of_containers number }
{
    is_in(container_ranges(), number)
}
