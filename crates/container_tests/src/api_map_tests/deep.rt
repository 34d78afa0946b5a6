//! Rows of entries of a view whose values are nested as deeply as a walk goes, and one level deeper.
use super::sample::Maps;
use member_rows::first_wrong;
use std::alloc::{AllocError, Global};
use std::string::String;
use std::test::Fail;

// Of two maps with lists of so many levels around 1, the view of the first one's entries, the entry of the second, a list of the
// entry, and an empty map: their lines behind those of the lists; and the rows.
const ROWS: [(u32, &str, &str); 2] = [
    (
        98,
        "\
map open 0 'k'=@97
map open 0 'k'=@195
entries @196
entry @197 'k'
list open 0 @199
map open 0",
        "\
100 @198 @199 | true | 0 | @201 0 {}
101 @198 @200 | true | 0 | @201 0 {}
103 @198 @199 | true | 0 | @196 1 {}
104 @198 @200 | true | 0 | @196 1 {}
105 @198 @200 | false | 0 | @201 0 {}",
    ),
    (
        99,
        "\
map open 0 'k'=@98
map open 0 'k'=@197
entries @198
entry @199 'k'
list open 0 @201
map open 0",
        "\
100 @200 @201 | !IllegalStateException: value nested too deeply | 24 | @203 0 {}
101 @200 @202 | !IllegalStateException: value nested too deeply | 24 | @203 0 {}
103 @200 @201 | !IllegalStateException: value nested too deeply | 24 | @203 0 {}
104 @200 @202 | !IllegalStateException: value nested too deeply | 24 | @203 0 {}
105 @200 @202 | !IllegalStateException: value nested too deeply | 24 | @203 0 {}",
    ),
];

// Lists in one another around 1, the innermost first, which has this number.
fn push_lists(
    alloc: Global,
    lines: &mut String,
    first: u32,
    levels: u32,
) -> Result<(), AllocError> {
    lines.push_str("list open 0 1\n")?;
    for level in 1..levels {
        let below = first.saturating_add(level).saturating_sub(1);
        let line = format!(in alloc; "list open 0 @{below}\n")?;
        lines.push_str(line.as_str())?;
    }
    Ok(())
}

fn objects(alloc: Global, levels: u32, others: &str) -> Result<String, AllocError> {
    let mut lines = String::new(alloc);
    push_lists(alloc, &mut lines, 0, levels)?;
    push_lists(alloc, &mut lines, levels, levels)?;
    lines.push_str(others)?;
    Ok(lines)
}

#[test]
fn entries_are_compared_like_objects(rt: HostRuntime) -> Result<(), Fail> {
    for (levels, others, rows) in &ROWS {
        let lines = objects(rt.alloc(), *levels, *others)?;
        let wrong = first_wrong::<Maps>(rt.alloc(), lines.as_str(), *rows);
        assert!(rt; wrong == 0, "{levels}, line {wrong}");
    }
    Ok(())
}
