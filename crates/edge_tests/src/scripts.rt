//! Scripts of calls that say otherwise than what comes: each is found.
use session_scripts::calls::{first_wrong, first_wrong_saving};
use std::test::Fail;

/// A file of one byte in the root, and the same without it.
const ONE_FILE: &str = "2
    1 directory 0o755 1 1 3 f 2
    2 file 0o644 1 1 a
";

const NO_FILE: &str = "1
    1 directory 0o755 1 0
";

/// Scripts and the place where they are found to be wrong: by another result, another error, the number of an error as a result, a result as
/// the number of an error, and in the second call. Memory that shows other bytes has no place.
const WRONG: [(&str, Option<u8>); 6] = [
    ("open '/f = 4", Some(1)),
    ("open '/none ! eacces", Some(1)),
    ("open '/none = enoent", Some(1)),
    ("open '/f ! 3", Some(1)),
    ("open '/f = 3\nopen '/f = 3", Some(2)),
    ("open '/f = 3\nshow room 1 : 01", None),
];

#[test]
fn wrong_calls_are_found(rt: HostRuntime) -> Result<(), Fail> {
    for (script, place) in WRONG {
        assert_eq!(rt; first_wrong(rt.alloc(), script, ONE_FILE)?, place);
    }
    Ok(())
}

#[test]
fn wrong_trees_are_found(rt: HostRuntime) -> Result<(), Fail> {
    let opens = "open '/f = 3";
    let right = first_wrong_saving(rt.alloc(), &[], opens, ONE_FILE, ONE_FILE)?;
    assert_eq!(rt; right, Some(0));
    let wrong = first_wrong_saving(rt.alloc(), &[], opens, ONE_FILE, NO_FILE)?;
    assert_eq!(rt; wrong, None);
    Ok(())
}
