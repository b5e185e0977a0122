// What two books have of an event.
use crate::browsers::site;
use book::record::{Event, Record};
use bounded::text::Text;
use browser::values::{Out, What};
use compare::let_out::{same_by_others, same_let_out};
use std::test::Fail;

fn said(from: u32, to: u32, bytes: &[u8]) -> Result<Out, Fail> {
    let Some(what) = Text::new(bytes) else {
        return Err(Fail::new("too long"));
    };
    Ok(Out {
        from: site(from)?,
        to: site(to)?,
        what: What::Said { window: 0, what },
    })
}

fn opened(from: u32, to: u32, path: &[u8]) -> Result<Out, Fail> {
    let Some(path) = Text::new(path) else {
        return Err(Fail::new("too long"));
    };
    Ok(Out {
        from: site(from)?,
        to: site(to)?,
        what: What::Opened { path },
    })
}

fn record(page: Option<Out>, server: Option<Out>) -> Record {
    Record {
        event: Event::Turn { window: 0 },
        site: None,
        fault: 0,
        page,
        server,
    }
}

#[test]
fn what_is_let_out_is_compared_by_site(rt: HostRuntime) -> Result<(), Fail> {
    let a = said(1, 0, b"a")?;
    let b = said(1, 0, b"b")?;
    let other = said(0, 1, b"a")?;
    let within = said(1, 1, b"b")?;
    let to_itself = opened(1, 1, b"/")?;
    // two records, and whether site 1 and all others let out the same
    let cases = [
        (record(Some(a), None), record(Some(a), None), true, true),
        (record(Some(a), None), record(Some(b), None), false, true),
        (record(Some(a), None), record(None, Some(a)), true, true),
        (
            record(Some(a), Some(other)),
            record(Some(a), None),
            true,
            false,
        ),
        (
            record(Some(other), Some(a)),
            record(Some(a), Some(other)),
            true,
            true,
        ),
        (record(Some(within), None), record(None, None), true, true),
        (
            record(Some(to_itself), None),
            record(None, None),
            false,
            true,
        ),
        (
            record(Some(a), Some(b)),
            record(Some(b), Some(a)),
            false,
            true,
        ),
    ];
    for (one, two, own, others) in cases {
        assert_eq!(rt; same_let_out(&one, &two, site(1)?), own);
        assert_eq!(rt; same_by_others(&one, &two, site(1)?), others);
    }
    Ok(())
}
