// What servers are asked.
use crate::browsers::site;
use compare::sent::same_requests;
use std::test::Fail;

#[test]
fn requests_to_others_are_compared(rt: HostRuntime) -> Result<(), Fail> {
    // each side's site and bytes, and whether others are asked the same but for site 1
    let cases: [(Option<u8>, &[u8], Option<u8>, &[u8], bool); 6] = [
        (None, b"", None, b"x", true),
        (Some(1), b"a", Some(1), b"b", true),
        (Some(1), b"a", None, b"", true),
        (Some(0), b"a", Some(0), b"a", true),
        (Some(0), b"a", Some(0), b"b", false),
        (Some(0), b"a", Some(1), b"a", false),
    ];
    for (one, bytes, two, others, same) in cases {
        assert_eq!(rt; same_requests(one, bytes, two, others, site(1)?), same);
    }
    Ok(())
}
